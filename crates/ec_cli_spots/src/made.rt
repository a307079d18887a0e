//! Headers, maps, reports and pictures, known by how they begin.

/// How such a text begins, whatever ends its lines, and what is told of it.
const MADE: [(&[u8], &str); 4] = [
    (
        b"/* A plan of ecplan",
        "It is a header for C, which frames --header writes.\n",
    ),
    (
        b"unit,station,direction,slot,",
        "It is a map, which frames --map writes.\n",
    ),
    (
        b"<!DOCTYPE html>\n<!-- A report of ecplan -->",
        "It is a report, which frames --report writes.\n",
    ),
    (
        b"<svg xmlns=\"http://www.w3.org/2000/svg\" role=\"img\" ",
        "It is a picture, as cost --svg writes them.\n",
    ),
];

/// Whether a text begins so, without its carriage returns.
fn begins_as(text: &[u8], front: &[u8]) -> bool {
    let mut found = text.iter().filter(|byte| **byte != b'\r');
    front.iter().all(|byte| found.next() == Some(byte))
}

/// What is told of a header, a map, a report or a picture that is read in place of a unit text or a certificate.
pub fn made_text(text: &[u8]) -> Option<&'static str> {
    for (front, told) in MADE {
        if begins_as(text, front) {
            return Some(told);
        }
    }
    None
}

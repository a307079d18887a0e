//! The text of a certificate: where its parts stand, and what is due at a line. All lines are counted from 0.

use ec_cli_spots::Inputs;

/// A certificate has so many units at most.
const MOST_UNITS: usize = 48;

/// The text of a certificate.
#[derive(Clone, Copy)]
pub(crate) struct CertText<'a> {
    text: &'a str,
    /// The version that it begins with, 1 to 4, or 0 where it begins otherwise.
    version: u8,
    /// How many lines in turn, from the third on, are those of units.
    pub units: usize,
}

/// What a line of a certificate has to be.
#[derive(Clone, Copy)]
enum Due {
    /// What has the same form in each version.
    Form(&'static str),
    /// A further unit, or the order of those that there are.
    Order,
    Level,
    Tree,
    Node,
}

/// How many children a line of a node says that it has.
fn children(node: &str) -> usize {
    node.strip_prefix("S ")
        .and_then(|count| count.parse::<usize>().ok())
        .unwrap_or(0)
}

impl<'a> CertText<'a> {
    /// That of these inputs, if they have a certificate that is a text.
    pub(crate) fn of(inputs: &Inputs<'a>) -> Option<CertText<'a>> {
        let text = std::str::from_utf8(inputs.cert?).ok()?;
        let version = match text.split('\n').next() {
            Some("ecplan 1") => 1,
            Some("ecplan 2") => 2,
            Some("ecplan 3") => 3,
            Some("ecplan 4") => 4,
            _ => 0,
        };
        let lines = text.split('\n').skip(2);
        let units = lines.take_while(|line| line.starts_with("unit ")).count();
        Some(CertText {
            text,
            version,
            units,
        })
    }

    /// One of its lines.
    pub(crate) fn line(self, line: usize) -> Option<&'a str> {
        self.text.split('\n').nth(line)
    }

    /// The line of its value, behind that of the order.
    fn value_line(self) -> usize {
        self.units.saturating_add(3)
    }

    /// Whether it says that there is no value.
    pub(crate) fn has_no_value(self) -> bool {
        self.line(self.value_line()) == Some("value none")
    }

    /// The line behind the value and the places: of versions 3 and 4 that of the level, else that before the nodes.
    fn level_line(self) -> usize {
        let places = if self.has_no_value() { 0 } else { self.units };
        self.value_line().saturating_add(1).saturating_add(places)
    }

    /// The line before the nodes.
    pub(crate) fn tree_line(self) -> usize {
        self.level_line()
            .saturating_add(usize::from(self.version >= 3))
    }

    /// Whether it has a level, as that of a search without a proof.
    pub(crate) fn is_partial(self) -> bool {
        self.version >= 3 && self.line(self.level_line()) != Some("level none")
    }

    /// Whether its tree is whole before a line.
    fn is_whole(self, line: usize) -> bool {
        let mut missing = 1usize;
        let front = self.text.split('\n').take(line);
        for node in front.skip(self.tree_line().saturating_add(1)) {
            missing = missing.saturating_sub(1).saturating_add(children(node));
        }
        missing == 0
    }

    /// What is due at a line, after the lines before it.
    fn due_at(self, line: usize) -> Due {
        match line {
            0 => Due::Form("ecplan 1, ecplan 2, ecplan 3 or ecplan 4"),
            1 => Due::Form("slots S, S 1 to 8"),
            2 => Due::Form("unit NAME BYTES PERIOD, BYTES 1 to 1486, PERIOD 1 to 60"),
            _ if line == MOST_UNITS + 2 && self.units >= MOST_UNITS => Due::Form(
                "order I I .. (each unit once, from 0), since a certificate has at most 48 units",
            ),
            _ if line < self.value_line() => Due::Order,
            _ if line == self.value_line() => Due::Form("value V, V 84 to 12304, or value none"),
            _ if line < self.level_line() => Due::Form(
                "place PHASE SLOT, PHASE 0 to 59, SLOT 0 to 7",
            ),
            _ if line < self.tree_line() => Due::Level,
            _ if line == self.tree_line() => Due::Tree,
            _ if self.is_whole(line) => Due::Form("end"),
            _ => Due::Node,
        }
    }

    /// The form of what is due, and the ranges of its numbers; those of the nodes that version 4 alone has are told by `note_of`. In
    /// version 1 no leaf has weights, and before version 4 only in version 3 a leaf may be open; in version 4 where there is a level.
    fn form_of(self, due: Due) -> &'static str {
        match (due, self.version) {
            (Due::Form(form), _) => form,
            (Due::Order, _) =>
                "unit NAME BYTES PERIOD (1 to 1486, 1 to 60), or order I I .. (each unit once, from 0)",
            (Due::Level, 4) => "level L, L 0 to 12304, or level none",
            (Due::Level, _) => "level L, L 0 to 12304",
            (Due::Tree, _) => "tree",
            (Due::Node, 1) =>
                "a node: S N (1 to 480), T TICK (0 to 1023), F TICK SLOT (SLOT 0 to 7), or A",
            (Due::Node, 3) =>
                "a node: S N (1 to 480), T TICK (0 to 1023), F TICK SLOT (SLOT 0 to 7), A, O, or W and 1 to 1024 weights (0 to 65535)",
            (Due::Node, 4) if self.is_partial() =>
                "a node: S CHILDREN, T TICK, F TICK SLOT, A, O, W and 1 to 1024 times WEIGHT, M, N PERIOD BYTES, or G and 1 to 48 pairs COUNT ROOM",
            (Due::Node, 4) =>
                "a node: S CHILDREN, T TICK, F TICK SLOT, A, W and 1 to 1024 times WEIGHT, M, N PERIOD BYTES, or G and 1 to 48 pairs COUNT ROOM",
            (Due::Node, _) =>
                "a node: S N (1 to 480), T TICK (0 to 1023), F TICK SLOT (SLOT 0 to 7), A, or W and 1 to 1024 weights (0 to 65535)",
        }
    }

    /// What is told of a line that stands only in certificates of other versions, or that has to stand in this one.
    fn note_of(self, due: Due, line: &str) -> &'static str {
        match (due, line.split(' ').next().unwrap_or(""), self.version) {
            (Due::Node, "W", 1) =>
                "A leaf W stands only in a certificate that begins with ecplan 2, ecplan 3 or ecplan 4.\n",
            (Due::Node, "M" | "N" | "G", 0..=3) =>
                "Leaves M, N and G stand only in a certificate that begins with ecplan 4.\n",
            (Due::Order, "order", _) => "An order has one number for each line unit above it.\n",
            (Due::Node, "O", 4) if !self.is_partial() =>
                "A leaf O stands only where there is a level, and this certificate has none.\n",
            (Due::Node, "O", version) if version != 3 && !self.is_partial() =>
                "A leaf O stands only in a certificate that has a level: it begins with ecplan 3 or ecplan 4.\n",
            (Due::Node, _, 4) =>
                "CHILDREN is 1 to 480, TICK 0 to 1023, SLOT 0 to 7, PERIOD 1 to 60, BYTES 1 to 1486, WEIGHT and COUNT 0 to 65535, ROOM 0 to 12304.\n",
            (Due::Tree, "level", 0..=2) =>
                "A line level stands only in a certificate that begins with ecplan 3 or ecplan 4.\n",
            (Due::Level, "level", _) => "",
            (Due::Level, _, 3) =>
                "A certificate that begins with ecplan 3 has this line before its tree.\n",
            (Due::Level, _, _) =>
                "A certificate that begins with ecplan 4 has this line before its tree.\n",
            _ => "",
        }
    }

    /// What is due at a line, and what is told of what stands there.
    pub(crate) fn wanted_at(self, line: usize) -> (&'static str, &'static str) {
        let due = self.due_at(line);
        let found = self.line(line).unwrap_or("");
        (self.form_of(due), self.note_of(due, found))
    }
}

//! A book with the units and the order that it is for.

ghost use Rattle.std.specs.Prelude.{◌≡◌, ℕ, ◌<◌, ◌≤◌, ◌↔◌, IsTrue, IfOk, length};
ghost use Rattle.ec_loads.specs.Line.{turned_time};
ghost use Rattle.ec_loads.specs.Search.{node_count};
ghost use Rattle.ec_cert.specs.Shapes.{cert_view, shape_of};
ghost use Rattle.ec_symmetry.specs.Orders.{IsOrder};
ghost use Rattle.ec_book.specs.Books.{IsBookOf};
ghost use Rattle.ec_workers.specs.Outcomes.{IsPartialCert};

use crate::call::Call;
use crate::certs::resumable;
use crate::guide::{Wish, found_below, is_reached};
use crate::samples::add_places;
use ec_book::{Book, BookFault, Finished, Taken};
use ec_branch::search_order;
use ec_cert::{Cert, Part, Tree};
use ec_loads::{Places, Plan};
use ec_symmetry::Rules;
use ec_text_builder::Draft;
use ec_units::{Place, Units};
use std::alloc::{AllocError, Global};
use std::marker::Model;
use std::mem;

/// Units and an order of them with a book for these by some rules.
#[derive(Drop)]
pub(crate) struct Desk {
    units: Units,
    order: Vec<u8>,
    rules: Rules,
    nodes: u64,
    book: Book,
}

impl Model for Desk {
    ghost use Rattle.std.specs.Prelude.{length};
    ghost use Rattle.std.specs.Coded.{codes};
    ghost use Rattle.ec_symmetry.specs.Orders.{IsOrder};
    ghost use Rattle.ec_symmetry.specs.Ruled.{line_rules};
    ghost use Rattle.ec_book.specs.ShapeCode.{shape_code};
    ghost use Rattle.ec_book.specs.Views.{BookView};
    ghost use Rattle.ec_book.specs.Books.{IsBookOf};

    ghost Value = { BookView };

    ghost coded = { Prim.hlevel (codes, shape_code) };

    ghost view = { λ d. d.book };

    ghost invariant = { λ d. IsOrder (length d.units.units) d.order.items × IsBookOf d.units.units d.units.slots d.order.items (line_rules d.rules) d.book };
}

/// Whether a tree splits or closes a node.
fn has_nodes(tree: &Tree) -> bool
    ensures { IsTrue result ↔ (0 < node_count (shape_of tree.now)) }
{
    match tree {
        Tree::OpenLeaf => false,
        _ => true,
    }
}

/// Adds what is handed out: piece, value, grant and prefix.
fn add_taken(out: &mut Draft, answer: &Result<Taken, BookFault>) {
    match answer {
        Ok(Taken::Piece(took)) => {
            out.add(format_args!("piece {} {:?} {} (", took.piece, took.value, took.grant));
            add_places(out, took.prefix.as_slice());
            out.add(')');
        }
        Ok(Taken::Later) => out.add("later"),
        Ok(Taken::Done) => out.add("done"),
        Err(fault) => out.add(format_args!("{fault:?}")),
    }
}

/// Adds what a book ends with: the nodes that were spent, the tree, the value of the best plan, and the steps.
fn add_finished(out: &mut Draft, done: &Finished) {
    let best = match &done.best {
        Some(best) => best.busiest,
        None => 0,
    };
    out.add(format_args!("{} {:?}", done.spent, done.tree));
    out.add(format_args!(" {best} {}", done.log.as_slice().len()));
}

/// A book that goes on with a certificate of version 3, and the order of its units.
fn resumed(
    alloc: Global,
    units: &Units,
    cert: Cert,
    nodes: u64,
) -> Result<(Book, Vec<u8>), AllocError>
    requires partial { IsPartialCert units.now.units units.now.slots (cert_view cert) }
    requires version { cert.version ≤ 3 }
    ensures order { IfOk result (λ r. IsOrder (length units.now.units) r.1.items) }
    ensures book { IfOk result (λ r. IsBookOf units.now.units units.now.slots r.1.items turned_time r.0) }
{
    let order = Vec::from_slice(alloc, cert.order.as_slice())?;
    let book = Book::resume(alloc, units, cert, Rules::Turned, Part::whole(), nodes)?;
    Ok((book, order))
}

impl Desk {
    /// A desk for these units in the order of the search, by these rules.
    pub(crate) fn new(
        alloc: Global,
        units: Units,
        rules: Rules,
        nodes: u64,
    ) -> Result<Desk, AllocError> {
        let order = search_order(alloc, &units)?;
        let book = Book::new(alloc, &units, order.as_slice(), rules, nodes)?;
        Ok(Desk {
            units,
            order,
            rules,
            nodes,
            book,
        })
    }

    /// Reports what a search below these places finds at a value with so many nodes.
    fn report_below(
        &mut self,
        alloc: Global,
        call: Call<'_>,
        piece: u64,
        prefix: &[Place],
        out: &mut Draft,
    ) {
        let wish = Wish {
            value: call.number(3),
            floor: 0,
            stops: false,
            grant: call.count(4),
        };
        let order = self.order.as_slice();
        if wish.grant == 0 || !is_reached(&self.units, order, self.rules, prefix) {
            return out.add("no node, or a place that is not reached");
        }
        let Ok((sub, _)) = found_below(alloc, &self.units, order, self.rules, prefix, wish) else {
            return out.give_up();
        };
        if !has_nodes(&sub.tree) {
            drop(sub);
            return out.add("an open leaf alone");
        }
        match self.book.report(call.index(1), piece, prefix, sub) {
            Ok(()) => out.add("Ok(())"),
            Err((fault, sub)) => {
                drop(sub);
                out.add(format_args!("Err({fault:?})"));
            }
        }
    }

    /// Reports what a search below no place or one finds.
    fn report(&mut self, alloc: Global, call: Call<'_>, out: &mut Draft) {
        let prefix = call.places(alloc, 5, out);
        match call.number(2) {
            Some(piece) => self.report_below(alloc, call, piece, prefix.as_slice(), out),
            None => out.add("no piece"),
        }
    }

    /// Offers a plan of these places.
    fn better(&mut self, alloc: Global, call: Call<'_>, out: &mut Draft) {
        let plan = Plan {
            places: Places::new(call.places(alloc, 2, out)),
        };
        match self.book.better(call.index(1), plan) {
            Ok(()) => out.add("Ok(())"),
            Err((fault, _)) => out.add(format_args!("Err({fault:?})")),
        }
    }

    /// Takes the lowest free piece, or the one of this number.
    fn take(&mut self, call: Call<'_>, out: &mut Draft) {
        let most = call.count(2);
        if most == 0 {
            return out.add("no grant");
        }
        let answer = match call.number(3) {
            Some(piece) => self.book.take_piece(call.index(1), piece, most),
            None => self.book.take(call.index(1), most),
        };
        add_taken(out, &answer);
    }

    /// Gives a piece back.
    fn back(&mut self, call: Call<'_>, out: &mut Draft) {
        match call.number(2) {
            Some(piece) => {
                let answer = self.book.back(call.index(1), piece);
                out.add(format_args!("{answer:?}"));
            }
            None => out.add("no piece"),
        }
    }

    /// Ends the book, and begins another.
    fn finish(&mut self, alloc: Global, out: &mut Draft) {
        let order = self.order.as_slice();
        let Ok(fresh) = Book::new(alloc, &self.units, order, self.rules, self.nodes) else {
            return out.give_up();
        };
        let Ok(done) = mem::replace(&mut self.book, fresh).finish() else {
            unreachable!()
        };
        add_finished(out, &done);
        drop(done);
    }

    /// Begins a book that goes on with the certificate of a text, where the checker shows of it no more than a level; else
    /// adds what the checker answers, and the book stays.
    fn resume(&mut self, alloc: Global, call: Call<'_>, out: &mut Draft) {
        let nodes = call.number(1).unwrap_or(0);
        let Some(cert) = resumable(out, alloc, &self.units, call.after(2)) else {
            return;
        };
        if cert.version > 3 {
            drop(cert);
            return out.add("version 4");
        }
        match resumed(alloc, &self.units, cert, nodes) {
            Ok((book, order)) => {
                drop(mem::replace(&mut self.book, book));
                self.order = order;
                self.rules = Rules::Turned;
                self.nodes = nodes;
                out.add("Ok(())");
            }
            Err(_) => out.add("memory"),
        }
    }

    /// Adds what the book tells of itself.
    fn tell(&self, call: Call<'_>, out: &mut Draft) {
        match call.name() {
            "counts" => {
                let steps = self.book.log().len();
                out.add(format_args!("{} {} {steps}", self.book.spent(), self.book.open_pieces()));
            }
            "log" => out.add(format_args!("{:?}", self.book.log())),
            _ => out.add("no call"),
        }
    }

    /// Adds what a call of the book answers.
    pub(crate) fn answer(&mut self, alloc: Global, call: Call<'_>, out: &mut Draft) {
        match call.name() {
            "take" => self.take(call, out),
            "report" => self.report(alloc, call, out),
            "better" => self.better(alloc, call, out),
            "back" => self.back(call, out),
            "finish" => self.finish(alloc, out),
            "resume" => self.resume(alloc, call, out),
            _ => self.tell(call, out),
        }
    }
}

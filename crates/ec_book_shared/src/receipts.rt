//! What a worker did, by its own account.

ghost use Rattle.std.specs.Prelude.{◌≡◌, ℕ, ◌+◌, ◌≤◌, ◌==◌, ◌++◌, ◌∷◌, [], true, false, length, vec_capacity};
ghost use Rattle.std.specs.List.{list_any};
ghost use Rattle.ec_book_shared.specs.Receipts.{held_after, held_without, held_of, holds as holds_spec, taken_steps};

use ec_book::{Step, Taken};
use std::alloc::Global;

/// The steps that a worker made, and the pieces that it holds by them. There is always room for the step that ends each
/// of these.
#[derive(Drop)]
pub(crate) struct Receipts {
    pub(crate) steps: Vec<Step>,
    pub(crate) held: Vec<u64>,
    pub ghost held_is: { held.items ≡ held_of steps.items },
    pub ghost room: { length steps.items + length held.items ≤ vec_capacity steps },
}

/// Follows which pieces are held, by one more step.
fn follow(held: &mut Vec<u64>, step: Step)
    requires { length (held_after held.old.items step) ≤ vec_capacity held.old }
    ensures { held.new.items ≡ held_after held.old.items step }
{
    match step {
        Step::Took { piece, .. } => held.push_reserved(piece),
        Step::Reported { piece, .. } => held.retain(|p| *p != piece),
        Step::Back { piece, .. } => held.retain(|p| *p != piece),
        Step::Better { .. } => {}
    }
}

impl Receipts {
    /// No steps.
    pub(crate) fn new(alloc: Global) -> Receipts
        ensures { result.steps.items ≡ [] }
    {
        Receipts {
            steps: Vec::new(alloc),
            held: Vec::new(alloc),
        }
    }

    /// Whether the worker holds the piece.
    pub(crate) fn holds(&self, piece: u64) -> bool
        ensures value { result ≡ holds_spec self.now.steps.items piece }
        ensures held { result ≡ list_any (λ p. p == piece) self.now.held.items }
    {
        self.held.contains(&piece)
    }

    /// Makes room for one more step, and for the end of the piece that it may take; false where memory is refused.
    pub(crate) fn make_room(&mut self) -> bool
        ensures same { (self.new.steps.items ≡ self.old.steps.items) × (self.new.held.items ≡ self.old.held.items) }
        ensures room { result ≡ true → (length self.new.steps.items + length self.new.held.items + 2 ≤ vec_capacity self.new.steps) × (length self.new.held.items + 1 ≤ vec_capacity self.new.held) }
    {
        let Receipts { steps, held } = self;
        let Some(more) = held.len().checked_add(2) else {
            return false;
        };
        let Ok(()) = steps.reserve(more) else {
            return false;
        };
        let Ok(()) = held.reserve(1) else {
            return false;
        };
        true
    }

    /// Makes room for the step that ends a piece; that of a piece that is held is there. False where memory is refused.
    #[tactic(auto, using(crate::proofs::Holding::fewer))]
    pub(crate) fn room_to_end(&mut self, piece: u64) -> bool
        ensures same { self.new.steps.items ≡ self.old.steps.items }
        ensures room { result ≡ true → length self.new.steps.items + 1 + length (held_without self.new.held.items piece) ≤ vec_capacity self.new.steps }
        ensures held { length (held_without self.new.held.items piece) ≤ vec_capacity self.new.held }
    {
        if self.holds(piece) {
            return true;
        }
        self.make_room()
    }

    /// Writes a step down, for which there is room.
    #[tactic(auto, using(crate::proofs::Holding::held_of_push))]
    pub(crate) fn note(&mut self, step: Step)
        requires room { length self.old.steps.items + 1 + length (held_after self.old.held.items step) ≤ vec_capacity self.old.steps }
        requires held { length (held_after self.old.held.items step) ≤ vec_capacity self.old.held }
        ensures { self.new.steps.items ≡ self.old.steps.items ++ step ∷ [] }
    {
        let Receipts { steps, held } = self;
        follow(held, step);
        steps.push_reserved(step);
    }

    /// Writes down what the worker was handed out, for which there is room.
    pub(crate) fn note_taken(&mut self, worker: usize, taken: &Taken)
        requires room { length self.old.steps.items + length self.old.held.items + 2 ≤ vec_capacity self.old.steps }
        requires held { length self.old.held.items + 1 ≤ vec_capacity self.old.held }
        ensures { self.new.steps.items ≡ taken_steps self.old.steps.items worker taken.now }
    {
        match taken {
            Taken::Piece(took) => self.note(Step::Took {
                worker,
                piece: took.piece,
                grant: took.grant,
            }),
            Taken::Later => {}
            Taken::Done => {}
        }
    }
}

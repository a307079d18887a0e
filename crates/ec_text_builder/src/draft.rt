//! A text under way.

ghost use Rattle.std.specs.Prelude.{◌≡◌, [], None, Some, IfErr, IfOk, string_bytes};
ghost use Rattle.ec_text_builder.specs.IsAdded.{IsAdded};

use std::alloc::{AllocError, Global};
use std::fmt::{Display, Write};
use std::marker::Model;

/// A text under way. Where memory runs out nothing more is added, and there is no text in the end. A contract sees it as its
/// bytes, or as none where memory ran out.
#[derive(Drop)]
pub struct Draft {
    text: String,
    is_whole: bool,
}

impl Model for Draft {
    ghost use Rattle.std.specs.Prelude.{ℕ, List, Option, None, Some, cond, string_bytes};

    ghost Value = { Option (List ℕ) };

    ghost view = { λ d. cond d.is_whole (Some (string_bytes d.text)) None };
}

impl Draft {
    /// A text of no bytes; takes no memory.
    pub fn new(alloc: Global) -> Draft
        ensures { result ≡ Some [] }
    {
        Draft {
            text: String::new(alloc),
            is_whole: true,
        }
    }

    /// Adds a piece, where memory is given for it and was given for all before it.
    pub fn add<D: Display + Drop>(&mut self, piece: D)
        ensures { IsAdded self.old (D.output piece) self.new }
    {
        if self.is_whole {
            self.is_whole = write!(self.text, "{piece}").is_ok();
        }
    }

    /// Notes that memory ran out elsewhere, so that there is no text in the end.
    pub fn give_up(&mut self)
        ensures { self.new ≡ None }
    {
        self.is_whole = false;
    }

    /// The text.
    ///
    /// # Errors
    ///
    /// `AllocError` where memory ran out over a piece.
    pub fn finish(self) -> Result<String, AllocError>
        ensures ok { IfOk result (λ text. self ≡ Some (string_bytes text)) }
        ensures err { IfErr result (λ _. self ≡ None) }
    {
        if self.is_whole {
            Ok(self.text)
        } else {
            Err(AllocError)
        }
    }
}

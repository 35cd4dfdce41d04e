//! A text of JSON that is written token by token. It takes memory only if it outgrows its room.
ghost use Rattle.std.specs.Prelude.{◌≡◌, [], ◌∷◌, ◌++◌, IfOk, OnOk};
ghost use Rattle.json.specs.Token.{begin_object, end_object, begin_array, end_array, key as key_token};
ghost use Rattle.json.specs.Print.{print};
ghost use Rattle.serde_json.specs.Data.{number, string, unsigned};
ghost use Rattle.serde_json.specs.Find.{of_integer};
ghost use Rattle.lost_writing.specs.Tokens.{then_token, then_value};

use json::Writer;
use std::alloc::{AllocError, Global};
use std::marker::Model;

/// A text of JSON that is being written. Contracts see it as its tokens.
#[derive(Drop)]
pub(crate) struct TokenText {
    alloc: Global,
    out: Writer,
}

impl Model for TokenText {
    ghost use Rattle.std.specs.Prelude.{◌≡◌, List, []};
    ghost use Rattle.json.specs.Token.{Token, tokens_code};

    ghost Value = { List Token };

    ghost coded = { tokens_code };

    ghost view = { λ text. text.out.tokens };

    ghost invariant = { λ text. text.out.before ≡ [] };
}

impl TokenText {
    /// The text of no tokens, with room for this many bytes.
    pub(crate) fn with_room(alloc: Global, bytes: usize) -> Result<TokenText, AllocError>
        ensures { IfOk result (λ text. text ≡ []) }
    {
        let room = Vec::with_capacity(alloc, bytes)?;
        Ok(TokenText {
            alloc,
            out: Writer::new(room),
        })
    }

    /// The allocator of the text.
    pub(crate) fn alloc(&self) -> Global {
        self.alloc
    }

    /// The text: its tokens in print.
    pub(crate) fn into_text(self) -> Vec<u8>
        ensures { result.items ≡ print self }
    {
        let TokenText { out, .. } = self;
        out.into_inner()
    }

    /// The line of the text: its tokens in print, and byte 10.
    pub(crate) fn into_line(self) -> Result<Vec<u8>, AllocError>
        ensures { IfOk result (λ line. line.items ≡ print self ++ 10 ∷ []) }
    {
        let mut line = self.into_text();
        line.push(b'\n')?;
        Ok(line)
    }

    /// Opens an object.
    #[tactic(auto, unfolding(crate::specs::Tokens::then_token))]
    pub(crate) fn begin_object(&mut self) -> Result<(), AllocError>
        ensures { OnOk result (self.new ≡ then_token begin_object self.old) }
    {
        self.out.begin_object()
    }

    /// Closes an object.
    #[tactic(auto, unfolding(crate::specs::Tokens::then_token))]
    pub(crate) fn end_object(&mut self) -> Result<(), AllocError>
        ensures { OnOk result (self.new ≡ then_token end_object self.old) }
    {
        self.out.end_object()
    }

    /// Opens a list.
    #[tactic(auto, unfolding(crate::specs::Tokens::then_token))]
    pub(crate) fn begin_list(&mut self) -> Result<(), AllocError>
        ensures { OnOk result (self.new ≡ then_token begin_array self.old) }
    {
        self.out.begin_array()
    }

    /// Closes a list.
    #[tactic(auto, unfolding(crate::specs::Tokens::then_token))]
    pub(crate) fn end_list(&mut self) -> Result<(), AllocError>
        ensures { OnOk result (self.new ≡ then_token end_array self.old) }
    {
        self.out.end_array()
    }

    /// Writes the name of a member. Its value comes next.
    #[tactic(auto, unfolding(crate::specs::Tokens::then_token))]
    pub(crate) fn name(&mut self, name: &str) -> Result<(), AllocError>
        ensures { OnOk result (self.new ≡ then_token (key_token name.now) self.old) }
    {
        self.out.key(name)
    }

    /// Writes a text.
    #[tactic(auto, unfolding(crate::specs::Tokens::then_value))]
    pub(crate) fn text(&mut self, text: &str) -> Result<(), AllocError>
        ensures { OnOk result (self.new ≡ then_value (string text.now) self.old) }
    {
        self.out.string(text)
    }

    /// Writes a count.
    #[tactic(auto, unfolding(crate::specs::Tokens::then_value))]
    pub(crate) fn count(&mut self, count: u64) -> Result<(), AllocError>
        ensures { OnOk result (self.new ≡ then_value (number (unsigned count)) self.old) }
    {
        self.out.u64(count)
    }

    /// Writes a whole number of either sign.
    #[tactic(auto, unfolding(crate::specs::Tokens::then_value), using(crate::proofs::TokenLemmas::whole_text))]
    pub(crate) fn whole(&mut self, whole: i64) -> Result<(), AllocError>
        ensures { OnOk result (self.new ≡ then_value (number (of_integer whole)) self.old) }
    {
        self.out.i64(whole)
    }
}

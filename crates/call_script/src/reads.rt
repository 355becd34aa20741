//! Fields are read from the tokens of a line.

ghost use Rattle.std.specs.Prelude.{◌≡◌, ◌∷◌, [], OnOk, OnErr, IfErr, IfOk};

use crate::calls::OpenMode;
use crate::dims::{Dims, read_dims};
use crate::fields::{
    read_file_number, read_hex, read_limit, read_mode, read_node, read_text, read_type,
};
use crate::tokens::Tokens;
use adf_model::{AdfError, DataType, NodeId, Selection, Text};
use std::alloc::Global;

// Each reads one field and leaves the tokens behind it. It is refused with `Syntax` where the tokens
// begin with no such field, or for want of memory; nothing is said of what is left then.
impl<'a> Tokens<'a> {
    ghost use Rattle.std.specs.Prelude.{IfOk, IfErr};
    ghost use Rattle.call_script.specs.Fields.{Kind, IsFieldRead};
    ghost use Rattle.call_script.specs.Tokens.{tokens_left};

    /// The next token: refused behind the last.
    pub(crate) fn token(&mut self) -> Result<&'a [u8], AdfError>
        ensures found { IfOk result (λ token. tokens_left self.old
            ≡ token.now ∷ tokens_left self.new) }
        ensures none { IfErr result (λ e. (e ≡ AdfError.Syntax) × (tokens_left self.old ≡ [])) }
    {
        match self.next() {
            Some(token) => Ok(token),
            None => Err(AdfError::Syntax),
        }
    }

    pub(crate) fn file_number(&mut self) -> Result<u32, AdfError>
        ensures { IsFieldRead Kind.a_file (tokens_left self.old) result (tokens_left self.new) }
    {
        match read_file_number(self.token()?) {
            Some(number) => Ok(number),
            None => Err(AdfError::Syntax),
        }
    }

    pub(crate) fn mode(&mut self) -> Result<OpenMode, AdfError>
        ensures { IsFieldRead Kind.a_mode (tokens_left self.old) result (tokens_left self.new) }
    {
        match read_mode(self.token()?) {
            Some(mode) => Ok(mode),
            None => Err(AdfError::Syntax),
        }
    }

    pub(crate) fn limit(&mut self) -> Result<u64, AdfError>
        ensures { IsFieldRead Kind.a_limit (tokens_left self.old) result (tokens_left self.new) }
    {
        match read_limit(self.token()?) {
            Some(limit) => Ok(limit),
            None => Err(AdfError::Syntax),
        }
    }

    pub(crate) fn node(&mut self) -> Result<NodeId, AdfError>
        ensures { IsFieldRead Kind.a_node (tokens_left self.old) result (tokens_left self.new) }
    {
        match read_node(self.token()?) {
            Some(node) => Ok(node),
            None => Err(AdfError::Syntax),
        }
    }

    pub(crate) fn text(&mut self, alloc: Global) -> Result<Text, AdfError>
        ensures { IsFieldRead Kind.a_text (tokens_left self.old) result (tokens_left self.new) }
    {
        read_text(alloc, self.token()?)
    }

    pub(crate) fn bytes(&mut self, alloc: Global) -> Result<Text, AdfError>
        ensures { IsFieldRead Kind.some_bytes (tokens_left self.old) result
            (tokens_left self.new) }
    {
        read_hex(alloc, self.token()?)
    }

    pub(crate) fn data_type(&mut self) -> Result<DataType, AdfError>
        ensures { IsFieldRead Kind.a_type (tokens_left self.old) result (tokens_left self.new) }
    {
        match read_type(self.token()?) {
            Some(kind) => Ok(kind),
            None => Err(AdfError::Syntax),
        }
    }

    pub(crate) fn dims(&mut self) -> Result<Dims, AdfError>
        ensures { IsFieldRead Kind.some_dims (tokens_left self.old) result
            (tokens_left self.new) }
    {
        match read_dims(self.token()?) {
            Some(dims) => Ok(dims),
            None => Err(AdfError::Syntax),
        }
    }

    pub(crate) fn selection(&mut self) -> Result<Selection, AdfError>
        ensures { IsFieldRead Kind.a_selection (tokens_left self.old) result
            (tokens_left self.new) }
    {
        let start = self.dims()?;
        let end = self.dims()?;
        let stride = self.dims()?;
        let rank = start.rank;
        if rank == 0 || end.rank != rank || stride.rank != rank {
            return Err(AdfError::Syntax);
        }
        let first = start.sizes;
        let last = end.sizes;
        let step = stride.sizes;
        Ok(Selection {
            rank,
            start: first,
            end: last,
            stride: step,
        })
    }
}

//! The words that begin calls and edits.

ghost use Rattle.std.specs.Prelude.{◌≡◌, ◌≢◌, IfSome, IsNone};
ghost use Rattle.call_script.specs.declared.words.CallWord.{CallWord};
ghost use Rattle.call_script.specs.declared.words.EditWord.{EditWord};
ghost use Rattle.call_script.specs.declared.words.QueryWord.{QueryWord};
ghost use Rattle.call_script.specs.Lines.{call_word, query_word, edit_word};

/// The first word of a call line that is no group of edits.
#[derive(Clone, Copy, Debug, PartialEq, Eq, Drop)]
pub(crate) enum CallWord {
    Open,
    Close,
    Discard,
    Ask(QueryWord),
}

/// The first word of a query, by the name of the query.
#[derive(Clone, Copy, Debug, PartialEq, Eq, Drop)]
pub(crate) enum QueryWord {
    Name,
    LabelOf,
    ShapeOf,
    ChildrenOf,
    LinkText,
    ReadAll,
    ReadPart,
    Find,
    Next,
    FormatOf,
    Parent,
    Target,
}

/// The first word of an edit, by the name of the edit.
#[derive(Clone, Copy, Debug, PartialEq, Eq, Drop)]
pub(crate) enum EditWord {
    Create,
    Delete,
    Rename,
    Move,
    SetLabel,
    SetDims,
    PutAll,
    PutPart,
    Link,
}

/// The word that a token is.
pub(crate) fn read_call_word(token: &[u8]) -> Option<CallWord>
    ensures found { IfSome result (λ word. token.now ≡ call_word word) }
    ensures none { IsNone result → (word : CallWord) → token.now ≢ call_word word }
{
    match token {
        b"open" => Some(CallWord::Open),
        b"close" => Some(CallWord::Close),
        b"discard" => Some(CallWord::Discard),
        _ => Some(CallWord::Ask(read_query_word(token)?)),
    }
}

// The word of a query that a token is.
fn read_query_word(token: &[u8]) -> Option<QueryWord>
    ensures found { IfSome result (λ word. token.now ≡ query_word word) }
    ensures none { IsNone result → (word : QueryWord) → token.now ≢ query_word word }
{
    match token {
        b"name" => Some(QueryWord::Name),
        b"label" => Some(QueryWord::LabelOf),
        b"shape" => Some(QueryWord::ShapeOf),
        b"children" => Some(QueryWord::ChildrenOf),
        b"link" => Some(QueryWord::LinkText),
        b"read" => Some(QueryWord::ReadAll),
        b"part" => Some(QueryWord::ReadPart),
        b"find" => Some(QueryWord::Find),
        b"next" => Some(QueryWord::Next),
        b"format" => Some(QueryWord::FormatOf),
        b"parent" => Some(QueryWord::Parent),
        b"target" => Some(QueryWord::Target),
        _ => None,
    }
}

/// The word of an edit that a token is.
pub(crate) fn read_edit_word(token: &[u8]) -> Option<EditWord>
    ensures found { IfSome result (λ word. token.now ≡ edit_word word) }
    ensures none { IsNone result → (word : EditWord) → token.now ≢ edit_word word }
{
    match token {
        b"create" => Some(EditWord::Create),
        b"delete" => Some(EditWord::Delete),
        b"rename" => Some(EditWord::Rename),
        b"move" => Some(EditWord::Move),
        b"setlabel" => Some(EditWord::SetLabel),
        b"dims" => Some(EditWord::SetDims),
        b"put" => Some(EditWord::PutAll),
        b"putpart" => Some(EditWord::PutPart),
        b"link" => Some(EditWord::Link),
        _ => None,
    }
}

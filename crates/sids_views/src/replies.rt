//! Replies, read as what was asked for.

ghost use Rattle.std.specs.Prelude.{◌≡◌, IfOk};
ghost use Rattle.adf_model.specs.Tests.{and_then};
ghost use Rattle.sids_views.specs.Replies.{as_bytes, as_shape, as_children, as_node, as_format, as_target, as_presence, IsBytes, IsShape, AreChildren, IsNodeReply, IsFormat};

use adf_model::{AdfError, Children, Format, NodeId, Reply, Shape, Text};

/// What bytes were answered.
pub(crate) fn as_bytes(answer: Result<Reply, AdfError>) -> Result<Text, AdfError>
    requires { IfOk answer IsBytes }
    ensures { result ≡ and_then answer as_bytes }
{
    match answer {
        Ok(Reply::Bytes(text)) => Ok(text),
        Ok(_) => unreachable!(),
        Err(error) => Err(error),
    }
}

/// Which shape was answered.
pub(crate) fn as_shape(answer: Result<Reply, AdfError>) -> Result<Shape, AdfError>
    requires { IfOk answer IsShape }
    ensures { result ≡ and_then answer as_shape }
{
    match answer {
        Ok(Reply::Shape(shape)) => Ok(shape),
        Ok(_) => unreachable!(),
        Err(error) => Err(error),
    }
}

/// Which children were answered.
pub(crate) fn as_children(answer: Result<Reply, AdfError>) -> Result<Children, AdfError>
    requires { IfOk answer AreChildren }
    ensures { result ≡ and_then answer as_children }
{
    match answer {
        Ok(Reply::Children(children)) => Ok(children),
        Ok(_) => unreachable!(),
        Err(error) => Err(error),
    }
}

/// Which node was answered.
pub(crate) fn as_node(answer: Result<Reply, AdfError>) -> Result<NodeId, AdfError>
    requires { IfOk answer IsNodeReply }
    ensures { result ≡ and_then answer as_node }
{
    match answer {
        Ok(Reply::Node(node)) => Ok(node),
        Ok(_) => unreachable!(),
        Err(error) => Err(error),
    }
}

/// Which byte order was answered.
pub(crate) fn as_format(answer: Result<Reply, AdfError>) -> Result<Format, AdfError>
    requires { IfOk answer IsFormat }
    ensures { result ≡ and_then answer as_format }
{
    match answer {
        Ok(Reply::Format(format)) => Ok(format),
        Ok(_) => unreachable!(),
        Err(error) => Err(error),
    }
}

/// Which node is followed: none where its link cannot be.
pub(crate) fn as_target(answer: Result<Reply, AdfError>) -> Result<Option<NodeId>, AdfError>
    requires { IfOk answer IsNodeReply }
    ensures { result ≡ as_target answer }
{
    match answer {
        Ok(Reply::Node(node)) => Ok(Some(node)),
        Ok(_) => unreachable!(),
        Err(AdfError::LinkMissing | AdfError::LinkChain | AdfError::Broken) => Ok(None),
        Err(error) => Err(error),
    }
}

/// Whether there are data, by the answer to a question for a part of them.
pub(crate) fn as_presence(answer: Result<Reply, AdfError>) -> Result<bool, AdfError>
    ensures { result ≡ as_presence answer }
{
    match answer {
        Ok(_) | Err(AdfError::BadRange | AdfError::TooLarge) => Ok(true),
        Err(AdfError::NoData) => Ok(false),
        Err(error) => Err(error),
    }
}

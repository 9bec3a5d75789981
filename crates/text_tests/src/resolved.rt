//! What whole texts are resolved to.

use constraint_model::FznModel;
use fzn_lexer::lex;
use fzn_model::{ModelError, resolve};
use fzn_parser::parse;
use fzn_parser::tree::Item;
use std::alloc::{AllocError, Global};

/// The items of a text that has some.
fn items_of(alloc: Global, text: &[u8]) -> Result<Vec<Item>, AllocError> {
    let Ok(tokens) = lex(alloc, text) else {
        return Err(AllocError);
    };
    match parse(alloc, text, tokens.as_slice()) {
        Ok(items) => Ok(items),
        Err(_) => Err(AllocError),
    }
}

/// The model of a text, or the kind and the place of its first fault.
pub(crate) fn resolved(
    alloc: Global,
    text: &[u8],
) -> Result<Result<FznModel, (u8, usize)>, AllocError> {
    let items = items_of(alloc, text)?;
    match resolve(alloc, text, items.as_slice()) {
        Ok(model) => Ok(Ok(model)),
        Err(ModelError::Fault { kind, at }) => Ok(Err((kind, at))),
        Err(ModelError::NoMemory) => Err(AllocError),
    }
}

/// The first fault of the text of these two parts, none where it has a model.
pub(crate) fn fault_of(
    alloc: Global,
    front: &str,
    rest: &str,
) -> Result<Option<(u8, usize)>, AllocError> {
    let mut text = String::from_str(alloc, front)?;
    text.push_str(rest)?;
    Ok(resolved(alloc, text.as_bytes())?.err())
}

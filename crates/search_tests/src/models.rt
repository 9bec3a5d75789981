//! The models of small texts, and their programs.

ghost use Rattle.std.specs.Prelude.{IfOk};
ghost use Rattle.constraint_model.specs.WellFormed.{IsWellFormed};
ghost use Rattle.search_tests.specs.Models.{IsCompiled};

use constraint_model::FznModel;
use decompose::{Program, compile};
use fzn_lexer::lex;
use fzn_model::{law_well_formed, resolve};
use fzn_parser::parse;
use memory::NoMemory;
use moved_set::Masks;
use std::alloc::Global;

/// A model, its program, and the masks of the program's propagators.
#[derive(Drop)]
pub(crate) struct Compiled {
    pub(crate) model: FznModel,
    pub(crate) program: Program,
    pub(crate) masks: Masks,
}

/// The model of a text; a text that has none counts as want of memory.
pub(crate) fn model_of(alloc: Global, text: &str) -> Result<FznModel, NoMemory>
    ensures { IfOk result IsWellFormed }
{
    law_well_formed();
    let text = text.as_bytes();
    let Ok(tokens) = lex(alloc, text) else {
        return Err(NoMemory);
    };
    let Ok(items) = parse(alloc, text, tokens.as_slice()) else {
        return Err(NoMemory);
    };
    match resolve(alloc, text, items.as_slice()) {
        Ok(model) => Ok(model),
        Err(_) => Err(NoMemory),
    }
}

/// The same with its program.
pub(crate) fn compile_text(alloc: Global, text: &str) -> Result<Compiled, NoMemory>
    ensures { IfOk result (λ c. IsCompiled c.model c.program c.masks) }
{
    let model = model_of(alloc, text)?;
    let program = compile(alloc, &model)?;
    let masks = Masks::new(alloc, program.kernels.as_slice(), program.start.len())?;
    Ok(Compiled {
        model,
        program,
        masks,
    })
}

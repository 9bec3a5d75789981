//! The parts of the models of a few texts, written out.

use crate::resolved::resolved;
use constraint_model::{
    ArrayTerms, Constraint, FznModel, Goal, Operand, Output, Phase, Term, VarDecl,
};
use shared_list::SharedList;
use std::alloc::{AllocError, Global};
use std::test::Fail;

/// A name is written by its bytes, a variable by its place behind a mark.
fn show_name(out: &mut String, name: &[u8]) -> Result<(), AllocError> {
    for byte in name {
        out.push(*byte as char)?;
    }
    Ok(())
}

fn show_term(out: &mut String, term: Term) -> Result<(), AllocError> {
    match term {
        Term::Number(number) => write!(out, "{number} "),
        Term::Var(place) => write!(out, "#{place} "),
    }
}

fn show_terms(out: &mut String, terms: &[Term]) -> Result<(), AllocError> {
    out.push_str("[ ")?;
    for term in terms {
        show_term(out, *term)?;
    }
    out.push_str("] ")
}

fn show_arrays(out: &mut String, arrays: &[SharedList<Term>]) -> Result<(), AllocError> {
    for terms in arrays {
        show_terms(out, terms.as_slice())?;
        out.push_str("\n")?;
    }
    Ok(())
}

fn show_ranges(out: &mut String, ranges: &[(i64, i64)]) -> Result<(), AllocError> {
    for (low, high) in ranges {
        write!(out, "{low}..{high} ")?;
    }
    Ok(())
}

fn show_variables(out: &mut String, vars: &[VarDecl]) -> Result<(), AllocError> {
    for var in vars {
        show_name(out, var.name.as_slice())?;
        write!(out, " {} {} {}\n", var.is_bool, var.low, var.high)?;
    }
    Ok(())
}

/// The terms, and behind a mark the number of a declared array.
fn show_row(out: &mut String, row: &ArrayTerms) -> Result<(), AllocError> {
    show_terms(out, row.terms.as_slice())?;
    match row.number {
        Some(number) => write!(out, "@{number} "),
        None => Ok(()),
    }
}

fn show_operand(out: &mut String, operand: &Operand) -> Result<(), AllocError> {
    match operand {
        Operand::One(term) => show_term(out, *term),
        Operand::Row(row) => show_row(out, row),
        Operand::Set(ranges) => show_ranges(out, ranges.as_slice()),
    }
}

fn show_constraint(out: &mut String, constraint: &Constraint) -> Result<(), AllocError> {
    write!(out, "{} ", constraint.name.text())?;
    for operand in constraint.operands.as_slice() {
        show_operand(out, operand)?;
    }
    out.push_str("\n")
}

fn show_constraints(out: &mut String, constraints: &[Constraint]) -> Result<(), AllocError> {
    for constraint in constraints {
        show_constraint(out, constraint)?;
    }
    Ok(())
}

fn show_output(out: &mut String, output: &Output) -> Result<(), AllocError> {
    match output {
        Output::Scalar {
            name,
            is_bool,
            value,
        } => {
            show_name(out, name.as_slice())?;
            write!(out, " {is_bool} ")?;
            show_term(out, *value)
        }
        Output::Array {
            name,
            is_bool,
            ranges,
            entries,
        } => {
            show_name(out, name.as_slice())?;
            write!(out, " {is_bool} ")?;
            show_ranges(out, ranges.as_slice())?;
            show_terms(out, entries.as_slice())
        }
    }
}

fn show_outputs(out: &mut String, outputs: &[Output]) -> Result<(), AllocError> {
    for output in outputs {
        show_output(out, output)?;
        out.push_str("\n")?;
    }
    Ok(())
}

fn show_phase(out: &mut String, phase: &Phase) -> Result<(), AllocError> {
    write!(out, "{:?} {:?} ", phase.var_sel, phase.val_sel)?;
    for place in phase.vars.as_slice() {
        write!(out, "#{place} ")?;
    }
    out.push_str("\n")
}

fn show_goal(out: &mut String, goal: &Goal) -> Result<(), AllocError> {
    match goal {
        Goal::Satisfy => out.push_str("satisfy"),
        Goal::Minimize(term) => {
            out.push_str("minimize ")?;
            show_term(out, *term)
        }
        Goal::Maximize(term) => {
            out.push_str("maximize ")?;
            show_term(out, *term)
        }
    }
}

fn show_search(out: &mut String, phases: &[Phase]) -> Result<(), AllocError> {
    for phase in phases {
        show_phase(out, phase)?;
    }
    Ok(())
}

/// A part of a model.
#[derive(Clone, Copy)]
enum Part {
    Variables,
    Arrays,
    Constraints,
    /// The variables and then the constraints.
    Declared,
    Outputs,
    Search,
    Goal,
}

fn show_part(out: &mut String, model: &FznModel, part: Part) -> Result<(), AllocError> {
    match part {
        Part::Variables => show_variables(out, model.vars.as_slice()),
        Part::Arrays => show_arrays(out, model.arrays.as_slice()),
        Part::Constraints => show_constraints(out, model.constraints.as_slice()),
        Part::Declared => {
            show_variables(out, model.vars.as_slice())?;
            show_constraints(out, model.constraints.as_slice())
        }
        Part::Outputs => show_outputs(out, model.output.as_slice()),
        Part::Search => show_search(out, model.search.as_slice()),
        Part::Goal => show_goal(out, &model.goal),
    }
}

/// A part of the model of a text that has one, a line for each of what it has.
fn shown(alloc: Global, part: Part, text: &str) -> Result<String, AllocError> {
    let Ok(model) = resolved(alloc, text.as_bytes())? else {
        return Err(AllocError);
    };
    let mut shown = String::new(alloc);
    show_part(&mut shown, &model, part)?;
    Ok(shown)
}

/// A text with a part of its model.
struct Case {
    part: Part,
    text: &'static str,
    shown: &'static str,
}

/// Variables have the bounds of their types.
const VARIABLES: &[Case] = &[Case {
    part: Part::Variables,
    text: "var bool: b; var int: i; int: c = 3; var -3..0x4: r; var 5..3: e; solve satisfy;",
    shown: "b true 0 1\n\
                    i false -140737488355327 140737488355327\n\
                    r false -3 4\n\
                    e false 5 3\n",
}];

/// Constraints have their arguments.
const CONSTRAINTS: &[Case] = &[Case {
    part: Part::Constraints,
    text: "var int: x; var bool: b; int: c = 7; bool: t = true; \
        array [1..2] of int: cs = [-2, c]; array [1..2] of var int: xs = [x, 5]; \
        constraint int_le(x, c); constraint int_lt_reif(1, x, b); \
        constraint int_lin_le(cs, xs, -4); constraint int_lin_le_reif([1, -1], [x, c], c, t); \
        constraint bool_le(false, b); constraint bool_lt_reif(b, true, b); \
        constraint bool_lin_le([0o17], [b], 2); constraint int_lin_le([], [], 0); solve satisfy;",
    shown: "int_le #0 7 \n\
                    int_lt_reif 1 #0 #1 \n\
                    int_lin_le [ -2 7 ] @0 [ #0 5 ] @1 -4 \n\
                    int_lin_le_reif [ 1 -1 ] [ #0 7 ] 7 1 \n\
                    bool_le 0 #1 \n\
                    bool_lt_reif #1 1 #1 \n\
                    bool_lin_le [ 15 ] [ #1 ] 2 \n\
                    int_lin_le [ ] [ ] 0 \n",
}];

/// Arrays have their places in the order of their declarations, whatever comes between, also one that no constraint names;
/// of two that are alike each has its own, and one that is written out has none.
const ARRAYS: &[Case] = &[
    Case {
        part: Part::Arrays,
        text: "array [1..1] of int: a = [3]; var int: x; array [1..2] of var int: b = [x, 4]; set of int: s = {1}; \
        array [1..0] of bool: e = []; array [1..1] of int: c = [3]; constraint int_lin_le(a, [x], 3); solve satisfy;",
        shown: "[ 3 ] \n[ #0 4 ] \n[ ] \n[ 3 ] \n",
    },
    Case {
        part: Part::Constraints,
        text: "array [1..1] of int: a = [3]; var int: x; array [1..2] of var int: b = [x, 4]; set of int: s = {1}; \
        array [1..0] of bool: e = []; array [1..1] of int: c = [3]; constraint int_lin_le(c, a, 3); \
        constraint int_lin_le([3], a, 3); constraint array_int_maximum(x, b); constraint int_lin_le(e, [], 0); solve satisfy;",
        shown: "int_lin_le [ 3 ] @3 [ 3 ] @0 3 \n\
                    int_lin_le [ 3 ] [ 3 ] @0 3 \n\
                    array_int_maximum #0 [ #0 4 ] @1 \n\
                    int_lin_le [ ] @2 [ ] 0 \n",
    },
    Case {
        part: Part::Constraints,
        text: "array [1..1] of int: a = [3]; var int: x; constraint int_lin_le(a, [x], 3); \
        array [1..1] of int: c = [3]; constraint int_lin_le(c, [x], 3); constraint int_lin_le(a, c, 9); solve satisfy;",
        shown: "int_lin_le [ 3 ] @0 [ #0 ] 3 \n\
                    int_lin_le [ 3 ] @1 [ #0 ] 3 \n\
                    int_lin_le [ 3 ] @0 [ 3 ] @1 9 \n",
    },
];

/// Names that differ in underscores alone are told apart, and long ones are found.
const NAMES: &[Case] = &[Case {
    part: Part::Constraints,
    text: "var 0..0: a1; var 0..1: a_1; var 0..2: a__1; var 0..3: a___1; var 0..4: a____1; \
        var 0..5: a_____1; var 0..6: a______1; var 0..7: a_______1; var 0..8: a________1; var 0..9: a_________1; \
        int: a__________1 = 7; array [1..1] of int: a___________1 = [5]; var 0..9: a_name_of_more_than_22_bytes; \
        constraint int_le(a1, a_1); constraint int_le(a_______1, a____1); constraint int_le(a_________1, a________1); \
        constraint int_le(a_name_of_more_than_22_bytes, a__________1); constraint int_lin_le(a___________1, [a__1], 3); solve satisfy;",
    shown: "int_le #0 #1 \n\
                    int_le #7 #4 \n\
                    int_le #9 #8 \n\
                    int_le #10 7 \n\
                    int_lin_le [ 5 ] @0 [ #2 ] 3 \n",
}];

/// Declarations add constraints in their order.
const ADDED: &[Case] = &[
    Case {
        part: Part::Declared,
        text: "var {3,1,2}: x = 2; solve satisfy;",
        shown: "x false 1 3\nset_in #0 1..3 \nint_eq #0 2 \n",
    },
    Case {
        part: Part::Declared,
        text: "var {}: e; var {7, -2, 6}: s; solve satisfy;",
        shown: "e false 1 0\ns false -2 7\nset_in #0 \nset_in #1 -2..-2 6..7 \n",
    },
    Case {
        part: Part::Declared,
        text: "var bool: b = true; var bool: c = b; solve satisfy;",
        shown: "b true 0 1\nc true 0 1\nbool_eq #0 1 \nbool_eq #1 #0 \n",
    },
    Case {
        part: Part::Declared,
        text: "var 1..2: x; var 5..3: y = x; solve satisfy;",
        shown: "x false 1 2\ny false 5 3\nint_eq #1 #0 \n",
    },
    Case {
        part: Part::Declared,
        text: "var 0..9: x; var 0..9: y; array [1..2] of var 1..5: a = [x,y]; solve satisfy;",
        shown: "x false 0 9\ny false 0 9\nset_in #0 1..5 \nset_in #1 1..5 \n",
    },
    Case {
        part: Part::Declared,
        text: "array [1..2] of var {4, 2}: a = [3, 2]; array [1..1] of var 2..1: b = [0]; solve satisfy;",
        shown: "set_in 3 2..2 4..4 \nset_in 2 2..2 4..4 \nset_in 0 \n",
    },
    Case {
        part: Part::Declared,
        text: "array [1..1] of var int: a = [3]; set of int: s = {1}; int: c = 1; solve satisfy;",
        shown: "",
    },
];

/// Outputs are in the order of the declarations, and are found by the shape of their annotations.
const OUTPUTS: &[Case] = &[
    Case {
        part: Part::Outputs,
        text: "var bool: b :: output_var; int: c :: output_var = 3; bool: t :: output_var = true; \
        var int: n; set of int: s :: output_var = {1}; \
        array [1..4] of var bool: a :: output_array([1..2, 1..2]) = [true, false, b, t]; \
        array [1..0] of var int: e :: output_array([1..0]) = []; \
        array [1..2] of var int: p :: output_array([0x0..0]) :: output_var = [c, n]; \
        array [1..1] of int: h :: output_var = [1]; var int: m :: output_array([1..1]); solve satisfy;",
        shown: "b true #0 \n\
                    c false 3 \n\
                    t true 1 \n\
                    a true 1..2 1..2 [ 1 0 #0 1 ] \n\
                    e false 1..0 [ ] \n\
                    p false 0..0 [ 3 #1 ] \n",
    },
    Case {
        part: Part::Outputs,
        text: "var int: v :: is_defined_var :: output_var; solve satisfy;",
        shown: "v false #0 \n",
    },
    Case {
        part: Part::Outputs,
        text: "var int: v :: output_var(); solve satisfy;",
        shown: "",
    },
    Case {
        part: Part::Outputs,
        text: "var int: v :: note(output_var); solve satisfy;",
        shown: "",
    },
    Case {
        part: Part::Outputs,
        text: "array [1..0] of int: a :: output_array([0x0..5, 3..1]) = []; solve satisfy;",
        shown: "a false 0..5 3..1 [ ] \n",
    },
    Case {
        part: Part::Outputs,
        text: "array [1..0] of int: a :: output_array([]) :: output_array([{1}]) :: output_array([1..1]) = []; solve satisfy;",
        shown: "a false 1..1 [ ] \n",
    },
    Case {
        part: Part::Outputs,
        text: "array [1..0] of int: a :: output_array([1..1]) :: output_array([1..1, 1..1]) = []; solve satisfy;",
        shown: "a false 1..1 [ ] \n",
    },
    Case {
        part: Part::Outputs,
        text: "array [1..0] of int: a :: output_array([1..140737488355327]) = []; solve satisfy;",
        shown: "a false 1..140737488355327 [ ] \n",
    },
    Case {
        part: Part::Outputs,
        text: "array [1..0] of int: a :: output_array([-140737488355328..1]) = []; solve satisfy;",
        shown: "",
    },
    Case {
        part: Part::Outputs,
        text: "array [1..0] of int: a :: output_array([1..140737488355328]) = []; solve satisfy;",
        shown: "",
    },
    Case {
        part: Part::Outputs,
        text: "array [1..0] of int: a :: output_array([1..1], [1..1]) = []; solve satisfy;",
        shown: "",
    },
];

/// The phases are in the order of the text, and the last is one of all variables.
const SEARCHES: &[Case] = &[
    Case {
        part: Part::Search,
        text: "var 0..2: x; var 0..1: y; int: c = 1; array [1..2] of var int: ys = [y, x]; \
        solve :: int_search([x, c, y], first_fail, indomain_max, complete) \
        :: seq_search([int_search(ys, smallest, indomain_split), seq_search([bool_search([y], other, 7)])]) \
        :: int_search([q], input_order, indomain_min) :: int_search(ys, largest) satisfy;",
        shown: "FirstFail Max #0 #1 \n\
                    Smallest Split #1 #0 \n\
                    InputOrder Min #1 \n\
                    InputOrder Min #0 #1 \n",
    },
    Case {
        part: Part::Goal,
        text: "var 0..2: x; var 0..1: y; int: c = 1; array [1..2] of var int: ys = [y, x]; \
        solve :: int_search([x, c, y], first_fail, indomain_max, complete) \
        :: seq_search([int_search(ys, smallest, indomain_split), seq_search([bool_search([y], other, 7)])]) \
        :: int_search([q], input_order, indomain_min) :: int_search(ys, largest) satisfy;",
        shown: "satisfy",
    },
    Case {
        part: Part::Search,
        text: "var int: x; int: c = 7; var int: y; array [1..3] of var int: row = [x, c, y]; set of int: s = {}; \
            solve :: int_search(row, first_fail, indomain_max, complete) satisfy;",
        shown: "FirstFail Max #0 #1 \nInputOrder Min #0 #1 \n",
    },
    Case {
        part: Part::Search,
        text: "var int: x; int: c = 7; var int: y; array [1..3] of var int: row = [x, c, y]; set of int: s = {}; \
            solve :: bool_search([y, c, s, 1, true, \"t\", 1..2], 7, any()) satisfy;",
        shown: "InputOrder Min #1 \nInputOrder Min #0 #1 \n",
    },
    Case {
        part: Part::Search,
        text: "var int: x; int: c = 7; var int: y; array [1..3] of var int: row = [x, c, y]; set of int: s = {}; \
            solve :: seq_search([seq_search([int_search([x], largest, indomain_split)]), 3, int_search(row, smallest, indomain_reverse_split)]) satisfy;",
        shown: "Largest Split #0 \nSmallest ReverseSplit #0 #1 \nInputOrder Min #0 #1 \n",
    },
    Case {
        part: Part::Search,
        text: "var int: x; int: c = 7; var int: y; array [1..3] of var int: row = [x, c, y]; set of int: s = {}; \
            solve :: int_search([x, row], a, b) :: int_search([z], a, b) :: int_search(x, a, b) :: int_search(row, a) satisfy;",
        shown: "InputOrder Min #0 #1 \n",
    },
    Case {
        part: Part::Search,
        text: "var int: x; int: c = 7; var int: y; array [1..3] of var int: row = [x, c, y]; set of int: s = {}; \
            solve :: int_search([x()], a, b) :: int_search([[x]], a, b) :: seq_search(x) :: other(row, a, b) satisfy;",
        shown: "InputOrder Min #0 #1 \n",
    },
    Case {
        part: Part::Search,
        text: "var bool: a; var bool: b; var bool: c; solve satisfy;",
        shown: "InputOrder Min #0 #1 #2 \n",
    },
];

/// An objective is a variable or a number.
const GOALS: &[Case] = &[
    Case {
        part: Part::Goal,
        text: "var bool: b; var 1..2: x; solve minimize x;",
        shown: "minimize #1 ",
    },
    Case {
        part: Part::Goal,
        text: "int: c = -7; solve maximize c;",
        shown: "maximize -7 ",
    },
];

#[test]
fn models_have_these_parts(rt: HostRuntime) -> Result<(), Fail> {
    for table in [
        VARIABLES,
        ARRAYS,
        CONSTRAINTS,
        NAMES,
        ADDED,
        OUTPUTS,
        SEARCHES,
        GOALS,
    ] {
        for case in table {
            let part = shown(rt.alloc(), case.part, case.text)?;
            assert_eq!(rt; part.as_str(), case.shown, "at {}", case.text);
        }
    }
    Ok(())
}

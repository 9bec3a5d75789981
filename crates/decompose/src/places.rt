//! The variables and literals of a program.

ghost use Rattle.std.specs.Prelude.{◌≡◌, ◌≤◌, ◌++◌, map, length, slice_get, Some, All, IfOk, OnOk};
ghost use Rattle.std.specs.List.{position_or_len};
ghost use Rattle.std.specs.Ordering.{int_eq};
ghost use Rattle.constraint_model.specs.Arrays.{IsNumbered, HasNumber, HaveNumbers};
ghost use Rattle.constraint_model.specs.Limits.{most_constants};
ghost use Rattle.decompose.specs.Kernels.{variable_of, variables_of, number_of};
ghost use Rattle.decompose.specs.Mapped.{IsMapped};
ghost use Rattle.decompose.specs.Places.{AreFew, IsDeclared, HasDeclared, placing_of};
ghost use Rattle.decompose.specs.Rows.{literal_at};

use crate::coefficients::numbers;
use crate::mapped_lists::{MappedList, MappedLists, NO_MARK};
use constraint_model::{ArrayTerms, Constants, Constraint, Operand, Term};
use guarded_tell::Lit;
use shared_list::SharedList;
use std::alloc::{AllocError, Global};
use std::marker::Model;

/// The literal that is always true, since the constant 1 is at least 1.
pub(crate) const ALWAYS: Lit = Lit {
    var: 0,
    positive: true,
};

/// The literal that is always false.
pub(crate) const NEVER: Lit = Lit {
    var: 0,
    positive: false,
};

/// What the variables of a program represent: the constant 1, the declared variables, the other constants. There are so few
/// of them that each has a number. Beside them are the declared arrays, and what the propagators that name the same long one
/// share; contracts don't see the latter.
#[derive(Drop)]
pub(crate) struct Places {
    /// How many variables are declared.
    count: u32,
    /// The constants other than 1, in the order of their variables, and the declared arrays.
    constants: Constants,
    /// The variables and the numbers of long arrays.
    lists: MappedLists,
}

impl Model for Places {
    ghost use Rattle.decompose.specs.Mapped.{ArePlaces};
    ghost use Rattle.decompose.specs.Places.{Placing, placing_of};

    ghost Value = { Placing };

    ghost view = { λ p. placing_of p.count p.constants };

    ghost invariant = { λ p. ArePlaces (placing_of p.count p.constants) p.lists.entries.items };
}

/// The place of a constant.
fn place(number: i64, constants: &Constants) -> u32
    requires { length constants.now.numbers ≤ most_constants }
    ensures value { result ≡ position_or_len (int_eq number) constants.now.numbers }
    ensures small { result ≤ most_constants }
{
    constants.place_of(number) as u32
}

impl Places {
    /// The places of so many declared variables and of these other constants, with no lists.
    pub(crate) fn new(alloc: Global, count: u32, constants: Constants) -> Self
        requires { AreFew (placing_of count constants).numbering }
        ensures { result ≡ placing_of count constants }
    {
        Places {
            count,
            constants,
            lists: MappedLists::new(alloc),
        }
    }

    /// The variable of a number.
    fn constant_variable(&self, number: i64) -> u32
        ensures { result ≡ variable_of self.now.numbering (Term.Number number) }
    {
        if number == 1 {
            0
        } else {
            self.count + place(number, &self.constants) + 1
        }
    }

    /// The variable of a term.
    pub(crate) fn variable(&self, term: Term) -> u32
        requires { IsDeclared self.now.numbering.count term }
        ensures { result ≡ variable_of self.now.numbering term }
    {
        match term {
            Term::Number(number) => self.constant_variable(number),
            Term::Var(place) => {
                // The place is below the count, which is small.
                let _ = &self.count;
                place + 1
            }
        }
    }

    /// Adds the variables of terms.
    fn add_variables(&self, terms: &[Term], variables: &mut Vec<u32>) -> Result<(), AllocError>
        requires { All (IsDeclared self.now.numbering.count) terms.now }
        ensures { OnOk result (variables.new.items ≡ variables.old.items ++ variables_of self.now.numbering terms.now) }
    {
        for term in terms {
            variables.push(self.variable(*term))?;
        }
        Ok(())
    }

    /// The variables of terms, in a list with this mark.
    fn marked_variables(
        &self,
        alloc: Global,
        terms: &[Term],
        mark: usize,
    ) -> Result<SharedList<u32>, AllocError>
        requires { All (IsDeclared self.now.numbering.count) terms.now }
        ensures { IfOk result (λ variables. variables ≡ variables_of self.now.numbering terms.now) }
    {
        let mut variables = Vec::with_capacity(alloc, terms.len())?;
        self.add_variables(terms, &mut variables)?;
        SharedList::with_mark(variables, mark)
    }

    /// The variables of terms, in a list of their own.
    pub(crate) fn variables(
        &self,
        alloc: Global,
        terms: &[Term],
    ) -> Result<SharedList<u32>, AllocError>
        requires { All (IsDeclared self.now.numbering.count) terms.now }
        ensures { IfOk result (λ variables. variables ≡ variables_of self.now.numbering terms.now) }
    {
        self.marked_variables(alloc, terms, NO_MARK)
    }

    /// The variables of the entries of an array, in a list that those who name the same long declared array share.
    pub(crate) fn variables_of_row(
        &self,
        alloc: Global,
        row: &ArrayTerms,
    ) -> Result<SharedList<u32>, AllocError>
        requires declared { All (IsDeclared self.now.numbering.count) row.now.terms }
        requires numbered { IsNumbered self.now.arrays row.now }
        ensures { IfOk result (λ variables. variables ≡ variables_of self.now.numbering row.now.terms) }
    {
        match self.lists.find(row) {
            Some(list) => list.variables.share(alloc),
            None => self.variables(alloc, row.terms.as_slice()),
        }
    }

    /// Whether those who name an array share its lists.
    pub(crate) fn has_lists(&self, row: &ArrayTerms) -> bool {
        self.lists.find(row).is_some()
    }

    /// The numbers of the entries of an array, shared likewise.
    pub(crate) fn numbers_of_row(
        &self,
        alloc: Global,
        row: &ArrayTerms,
    ) -> Result<SharedList<i64>, AllocError>
        requires { IsNumbered self.now.arrays row.now }
        ensures { IfOk result (λ numbers. numbers ≡ map number_of row.now.terms) }
    {
        match self.lists.find(row) {
            Some(list) => list.numbers.share(alloc),
            None => numbers(alloc, row.terms.as_slice(), NO_MARK),
        }
    }

    /// The lists of the declared array of this number, which has these terms.
    fn mapped(&self, alloc: Global, number: usize, terms: &[Term]) -> Result<MappedList, AllocError>
        requires declared { All (IsDeclared self.now.numbering.count) terms.now }
        requires numbered { slice_get self.now.arrays number ≡ Some terms.now }
        ensures { IfOk result (λ list. IsMapped self.now list) }
    {
        let mark = self.lists.next_mark();
        Ok(MappedList {
            number,
            variables: self.marked_variables(alloc, terms, mark)?,
            numbers: numbers(alloc, terms, mark)?,
        })
    }

    /// Adds the lists of such an array, where it is named the second time and has none yet. Contracts see the same
    /// places.
    fn add_row(&mut self, alloc: Global, number: usize, terms: &[Term]) -> Result<(), AllocError>
        requires declared { All (IsDeclared self.old.numbering.count) terms.now }
        requires numbered { slice_get self.old.arrays number ≡ Some terms.now }
        ensures { self.new ≡ self.old }
    {
        if self.lists.has_number(number) || !self.lists.is_named_again(number)? {
            return Ok(());
        }
        let list = self.mapped(alloc, number, terms)?;
        self.lists.add(list)
    }

    /// Adds the lists of an argument that is a long declared array, of whose terms the model is an owner too, and was named
    /// before.
    fn add_operand(&mut self, alloc: Global, operand: &Operand) -> Result<(), AllocError>
        requires declared { HasDeclared self.old.numbering.count operand.now }
        requires numbered { HasNumber self.old.arrays operand.now }
        ensures { self.new ≡ self.old }
    {
        let Operand::Row(row) = operand else {
            return Ok(());
        };
        match row.number {
            Some(number) if row.terms.mark_if_shared().is_some() => {
                self.add_row(alloc, number, row.terms.as_slice())
            }
            _ => Ok(()),
        }
    }

    /// Adds the lists of such arguments.
    fn add_operands(&mut self, alloc: Global, operands: &[Operand]) -> Result<(), AllocError>
        requires declared { All (HasDeclared self.old.numbering.count) operands.now }
        requires numbered { All (HasNumber self.old.arrays) operands.now }
        ensures { self.new ≡ self.old }
    {
        for operand in operands {
            self.add_operand(alloc, operand)?;
        }
        Ok(())
    }

    /// The same places, with the lists of the long declared arrays that are named more than once, so
    /// that the propagators which name one have its lists together.
    pub(crate) fn with_lists(
        self,
        alloc: Global,
        constraints: &[Constraint],
    ) -> Result<Places, AllocError>
        requires declared { All (λ c. All (HasDeclared self.numbering.count) c.operands) constraints.now }
        requires numbered { HaveNumbers self.arrays constraints.now }
        ensures { IfOk result (λ places. places ≡ self) }
    {
        let mut places = self;
        for constraint in constraints {
            places.add_operands(alloc, constraint.operands.as_slice())?;
        }
        Ok(places)
    }

    /// The literal that is true where the boolean is, or where it isn't.
    pub(crate) fn literal(&self, positive: bool, boolean: Term) -> Lit
        requires { IsDeclared self.now.numbering.count boolean }
        ensures { result ≡ literal_at self.now.numbering positive boolean }
    {
        Lit {
            var: self.variable(boolean),
            positive,
        }
    }

    /// Adds such literals of booleans.
    pub(crate) fn add_literals(
        &self,
        positive: bool,
        booleans: &[Term],
        literals: &mut Vec<Lit>,
    ) -> Result<(), AllocError>
        requires { All (IsDeclared self.now.numbering.count) booleans.now }
        ensures { OnOk result (literals.new.items ≡ literals.old.items ++ map (literal_at self.now.numbering positive) booleans.now) }
    {
        for boolean in booleans {
            literals.push(self.literal(positive, *boolean))?;
        }
        Ok(())
    }
}

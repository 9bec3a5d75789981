//! The laws of the grammar, as contracts of functions that do nothing.

ghost use Rattle.std.specs.Prelude.{◌≡◌, ◌⊎◌, ℕ, List, [], ◌∷◌, ◌++◌};
ghost use Rattle.fzn_lexer.specs.declared.Token.{Token};
ghost use Rattle.fzn_parser.specs.Items.{WhatTree, what_at};
ghost use Rattle.fzn_parser.specs.Grammar.{IsWritten, print_what};
ghost use Rattle.fzn_parser.specs.Parsing.{ItemTree, ReadsAsItem, ReadsAs, FaultsAt};
ghost use Rattle.fzn_parser.specs.Stretches.{item_at};
ghost use Rattle.fzn_parser.specs.Texts.{first_stretch};
ghost use Rattle.fzn_parser.specs.declared.cursor.Lexeme.{Lexeme};
ghost use Rattle.fzn_parser.specs.declared.cursor.Symbol.{Symbol};

/// What is read as an item is what the grammar writes for it: with a value where it must have one, and within the
/// brackets that may be open.
pub fn law_read_is_written()
    ensures front { (depth : ℕ) (ls r : List Lexeme) (what : WhatTree) → what_at depth ls ≡ Some (what, r) → (ls ≡ print_what what ++ r) × IsWritten depth what }
    ensures item { (text : List ℕ) (tokens : List Token) (item : ItemTree) → item_at text tokens ≡ Some item → ReadsAsItem text tokens item }
{}

/// What the grammar writes for an item is read back.
pub fn law_written_is_read()
    ensures front { (depth : ℕ) (more : List Lexeme) (what : WhatTree) → IsWritten depth what → what_at depth (print_what what ++ Lexeme.Fixed Symbol.Semicolon ∷ more) ≡ Some (what, Lexeme.Fixed Symbol.Semicolon ∷ more) }
    ensures item { (text : List ℕ) (tokens : List Token) (item : ItemTree) → ReadsAsItem text tokens item → item_at text tokens ≡ Some item }
{}

/// The tokens of an item end with their one semicolon: whatever follows them, they are the first stretch.
pub fn law_item_is_stretch()
    ensures { (text : List ℕ) (front more : List Token) (item : ItemTree) → ReadsAsItem text front item → first_stretch text (front ++ more) ≡ front }
{}

/// Tokens read as one list of items or have one fault, and never both.
pub fn law_one_reading()
    ensures reads_or_faults { (text : List ℕ) (tokens : List Token) → ((items : List ItemTree) × ReadsAs text tokens items) ⊎ ((at : ℕ) × FaultsAt text tokens at) }
    ensures one_list { (text : List ℕ) (items others : List ItemTree) (tokens : List Token) → ReadsAs text tokens items → ReadsAs text tokens others → items ≡ others }
    ensures one_fault { (text : List ℕ) (tokens : List Token) (at place : ℕ) → FaultsAt text tokens at → FaultsAt text tokens place → at ≡ place }
    ensures never_both { (text : List ℕ) (tokens : List Token) (items : List ItemTree) (at : ℕ) → ReadsAs text tokens items → FaultsAt text tokens at → ⊥ }
{}

//! Laws of the grammar.
ghost use Rattle.std.specs.Prelude.{◌≡◌, ◌<◌, ◌^◌, ◌↔◌, ◌++◌, ◌∷◌, ℕ, List, [], length, codes, Some};
ghost use Rattle.target_file.specs.Calls.{Value, Argument};
ghost use Rattle.target_file.specs.Files.{IsDead, IsBad, attributes};
ghost use Rattle.target_file.specs.Targets.{Located, IsFile, names_of, default_of, target_of};
ghost use Rattle.target_file.specs.Meaning.{AreSame};
ghost use Rattle.target_file.specs.Rows.{w_text, w_file, g_text, g_file, g_command};
ghost use Rattle.target_file.specs.Strings.{locations};
ghost use Rattle.target_file.specs.declared.table.Attribute.{Attribute};
ghost use Rattle.target_file.specs.declared.table.Rule.{Rule};
ghost use Rattle.target_file.specs.Contents.{Holds, Fails, contents};
ghost use Rattle.target_file.specs.Spelling.{IsTokens};
ghost use Rattle.target_file.specs.Tokens.{Token, tokens};
ghost use Rattle.lists.specs.Lists.{AreDistinct, Has};

/// The contents of a text are one value, and are those of the grammar. A text is a file, and then
/// one list of targets; or it is bad, and then on one line; and not both.
pub fn contents_by_grammar()
    ensures file { (text : List ℕ) (file : List Located) → length text < 2 ^ 64
        → (contents text ≡ Holds file) ↔ IsFile text file }
    ensures bad { (text : List ℕ) (line : ℕ) → length text < 2 ^ 64
        → (contents text ≡ Fails line) ↔ IsBad text line }
{}

/// A text has one list of tokens at most, and they are those that the grammar spells it by.
pub fn tokens_by_grammar()
    ensures { (text : List ℕ) (ts : List Token) → (tokens text ≡ Some ts) ↔ IsTokens text 1 ts }
{}

/// What does not count in a call: the order of its attributes, and whether a default is written
/// out. And no two targets of a file have the same name.
pub fn calls_by_meaning()
    ensures order { (r : Rule) (xs ys : List Argument) → AreSame xs ys
        → target_of r xs ≡ target_of r ys }
    ensures default { (r : Rule) (a : Attribute) (v : Value) (xs : List Argument)
        → default_of r a (target_of r xs).name ≡ Some v → (Has (attributes xs) a → ⊥)
        → target_of r (xs ++ record { attribute = a; value = v } ∷ []) ≡ target_of r xs }
    ensures names { (text : List ℕ) (file : List Located) → IsFile text file
        → AreDistinct (names_of file) }
{}

/// Worked texts: the empty file, one target with the default of `out`, one with sources and a
/// location, and prefixes with which no file begins. Then texts that are no file: an unknown rule,
/// a string without end, a comma before the first argument, a location without its parenthesis, and
/// a list in place of a string.
pub fn worked_texts()
    ensures empty { IsFile [] [] }
    ensures one { IsFile w_text w_file }
    ensures sources { IsFile g_text g_file }
    ensures locations { locations g_command ≡ codes ":w" ∷ [] }
    ensures byte { IsDead (codes "~") }
    ensures word { IsDead (codes "cxx_library(") }
    ensures line { IsBad (codes "cxx_library(") 1 }
    ensures unclosed { IsBad (codes "write_file(name = 'w") 1 }
    ensures comma { IsBad (codes "filegroup(,") 1 }
    ensures location { IsBad (codes "genrule(cmd='$(location :w'") 1 }
    ensures list { IsBad (codes "stamp_file(name=[") 1 }
{}

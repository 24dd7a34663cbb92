//! The law of the rows, the contract of a function that does nothing.

ghost use Rattle.std.specs.Prelude.{◌≡◌, ◌++◌, true, List, Some, flat_map};
ghost use Rattle.std.specs.List.{find};
ghost use Rattle.asm_lexemes.specs.declared.tokens.Token.{Token};
ghost use Rattle.asm_forms.specs.declared.completer.Completer.{Completer};
ghost use Rattle.asm_forms.specs.declared.form.Form.{Form};
ghost use Rattle.asm_forms.specs.Completers.{text_of};
ghost use Rattle.asm_forms.specs.Items.{taken, filled, fits};
ghost use Rattle.asm_forms.specs.Spelled.{is_spelled};
ghost use Rattle.asm_forms.specs.Naming.{completers, named_forms, AreChosen};
ghost use Rattle.asm_forms.specs.Rows.{row_of};

/// The law that what a row prints is read as its form: of the forms that the row's stem names with one
/// completer of each set, the form is the first whose items are the row's fixed tokens with operands that fit it,
/// and the completers and the operands are those that were printed. It does nothing.
pub fn forms_are_read_back()
    ensures form { (f : Form) (cs : List Completer) (xs : List Token) → AreChosen (row_of f).sets cs → fits (row_of f).items xs ≡ true
        → find (is_spelled (filled (row_of f).items xs)) (named_forms ((row_of f).stem ++ flat_map text_of cs)) ≡ Some f }
    ensures completers { (f : Form) (cs : List Completer) → AreChosen (row_of f).sets cs → completers f ((row_of f).stem ++ flat_map text_of cs) ≡ Some cs }
    ensures operands { (f : Form) (xs : List Token) → fits (row_of f).items xs ≡ true → taken (row_of f).items (filled (row_of f).items xs) ≡ xs }
{}

// What trees are printed as, worked out from the definitions.

ghost use Rattle.std.specs.Prelude.{◌≡◌, codes};
ghost use Rattle.ckc_printer.specs.Spaced.{spaced_text};
ghost use Rattle.ckc_printer.specs.ExpressionPieces.{expression_pieces};
ghost use Rattle.ckc_printer.specs.StatementPieces.{statement_pieces};
ghost use Rattle.ckc_printer.specs.ItemPieces.{program_text};
ghost use Rattle.ckc_printer.specs.Examples.{small_program, empty_program, region_program, shift, nested, string, nearest};
ghost use Rattle.ckc_printer.specs.ReadingBack.{SignsSpellBack, PiecesLexBack, TokensAreLexical, TreesCanPrint, ReadsBack};

/// The texts of small trees. An expression or a statement alone has a space behind it.
pub fn examples()
    ensures small { program_text small_program ≡ codes "int g = 1 ; int main ( void ) { ptr < int > p = & g ; * p = 41 ; return g + 1 ; }\n" }
    ensures empty { program_text empty_program ≡ codes "\n" }
    ensures regions { program_text region_program ≡ codes "#pragma CHECKED_SCOPE on\nint g = 1 ;\n#pragma CHECKED_SCOPE off\n" }
    ensures shifted { spaced_text (expression_pieces shift) ≡ codes "a >> b " }
    ensures parentheses { spaced_text (expression_pieces nested) ≡ codes "( a + ( b * c ) ) * ( - d ) " }
    ensures escapes { spaced_text (expression_pieces string) ≡ codes "\"a\\x22\\x27\\x5c\\x0a\\xff\" " }
    ensures alternative { spaced_text (statement_pieces nearest) ≡ codes "if ( a ) if ( b ) ; else ; " }
{}

/// The tokens that a tree is printed as spell the tree, but for its spans.
pub fn signs_spell_back()
    ensures { SignsSpellBack }
{}

/// What a tree that tokens of a source spell is printed as can be read as tokens.
pub fn trees_can_print()
    ensures { TreesCanPrint }
{}

/// The text of pieces that can be printed has the tokens that they are.
pub fn pieces_lex_back()
    ensures { PiecesLexBack }
{}

/// The tokens of a source can be spelled: names are names, and numbers and bytes are in their range.
pub fn tokens_are_lexical()
    ensures { TokensAreLexical }
{}

/// What a tree that was read from a source is printed as reads to the same tree but for its spans, within the
/// limits of a source.
pub fn reads_back()
    ensures { ReadsBack }
{}

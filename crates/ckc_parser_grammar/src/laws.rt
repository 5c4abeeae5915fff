// What holds of the grammar.

ghost use Rattle.std.specs.Prelude.{ℕ, ◌≤◌, List, [], ◌∷◌, length, codes};
ghost use Rattle.ckc_parser_grammar.specs.Examples.{span, at, left_tokens, left_tree, product_tokens, product_tree, paren_tokens, paren_tree, shift_tokens, shift_tree, nested_tokens, nested_type, else_tokens, else_tree, early_tokens, whole_tokens, whole_tree};
ghost use Rattle.ckc_text.specs.declared.code.Code.TheVariants.{E06};
ghost use Rattle.ckc_lexer.specs.declared.token.Token.{Token};
ghost use Rattle.ckc_lexer.specs.declared.token.TokenKind.TheVariants as kinds;
ghost use Rattle.ckc_tree.specs.Items.{Tree};
ghost use Rattle.ckc_tree.specs.Weights.{tree_weight};
ghost use Rattle.ckc_parser_grammar.specs.TypeGrammar.{SpellsTypeName};
ghost use Rattle.ckc_parser_grammar.specs.ExpressionGrammar.{SpellsExpression};
ghost use Rattle.ckc_parser_grammar.specs.StatementGrammar.{SpellsStatement};
ghost use Rattle.ckc_parser_grammar.specs.ItemGrammar.{SpellsProgram};
ghost use Rattle.ckc_parser_grammar.specs.Parsing.{IsFault, point, AtMostOneTree, AtMostOneFault, NeverBoth, TreeOrFault, SpelledBegins, PrefixBegins, WholeBegins, SpelledPlaced};

/// No list of tokens spells two trees.
pub fn at_most_one_tree()
    ensures { AtMostOneTree }
{}

/// A list of tokens has one refusal at most.
pub fn at_most_one_fault()
    ensures { AtMostOneFault }
{}

/// Tokens that spell a tree that is low enough have no refusal.
pub fn never_both()
    ensures { NeverBoth }
{}

/// Each list of tokens has a tree that is low enough or a refusal.
pub fn tree_or_fault()
    ensures { TreeOrFault }
{}

/// What spells a tree begins, and has put its nodes.
pub fn spelled_begins()
    ensures { SpelledBegins }
{}

/// So does each prefix of what spells a tree.
pub fn prefix_begins()
    ensures { PrefixBegins }
{}

/// What begins up to the end of what spells a tree has put the nodes of the tree, in whichever way it is read.
pub fn whole_begins()
    ensures { WholeBegins }
{}

/// The spans of a tree that tokens spell lie in one another and in the source, and stand in order, where the tokens stand
/// in order in the source.
pub fn well_placed()
    ensures { SpelledPlaced }
{}

/// A tree that tokens spell has no more nodes than there are tokens.
pub fn few_nodes()
    ensures { (bytes : ℕ) (tokens : List Token) (t : Tree) → SpellsProgram bytes tokens t → tree_weight t ≤ length tokens }
{}

/// The tokens of small sources spell the trees that one reads in them.
pub fn examples()
    ensures left { SpellsExpression left_tokens left_tree (span 0 9) [] }
    ensures product { SpellsExpression product_tokens product_tree (span 0 9) [] }
    ensures paren { SpellsExpression paren_tokens paren_tree (span 0 11) [] }
    ensures shift { SpellsExpression shift_tokens shift_tree (span 0 6) [] }
    ensures types { SpellsTypeName nested_tokens nested_type (at 14 15 (kinds.Name (codes "p")) ∷ []) }
    ensures nearest { SpellsStatement else_tokens else_tree [] }
    ensures whole { SpellsProgram 28 whole_tokens whole_tree }
    ensures early { IsFault 26 (early_tokens []) (record { code = E06; span = point 26 }) }
{}

// Worked examples of the definitions.

ghost use Rattle.ckc_names.specs.Examples as examples;

/// Names that are visible and names that aren't, names that stand twice and names that don't, worked out from the
/// definition.
pub fn examples()
    ensures own_initialiser { examples.own_initialiser }
    ensures twice { examples.twice }
    ensures left_behind { examples.left_behind }
    ensures parameters { examples.parameters }
    ensures functions { examples.functions }
    ensures kinds { examples.kinds }
    ensures tags { examples.tags }
    ensures given { examples.given }
    ensures seen { examples.seen }
{}

// What holds of the sandbox's code as an actor.

ghost use Rattle.std.specs.Prelude.{◌≡◌, IsTrue};
ghost use Rattle.code_words.specs.Paced.{is_paced};
ghost use Rattle.act_words.specs.Acts.{Act};
ghost use Rattle.sandbox_actor.specs.Answers.{Answer, Gives, Moment, Lowers};
ghost use Rattle.sandbox_actor_code.specs.Answering.{CodeState, CodeAnswers};
ghost use Rattle.sandbox_actor_code.specs.StepsLeft.{left_to};

/// Each moment has one answer of code, with one state behind it: however many instructions are made, they come to one act, and
/// they come to one. An act that leaves the turn, and makes no touch, leaves fewer steps to the code. Each image keeps the pace.
pub fn one_answer()
    ensures one { (before after after' : CodeState) (now : Moment) (x y : Answer) → IsTrue (is_paced before.image)
        → CodeAnswers before now x after → CodeAnswers before now y after' → (x ≡ y) × (after ≡ after') }
    ensures some { (before : CodeState) (now : Moment) → IsTrue (is_paced before.image)
        → (x : Answer) × (after : CodeState) × CodeAnswers before now x after }
    ensures lowers { (before after : CodeState) (now : Moment) (act : Act) → IsTrue (is_paced before.image)
        → CodeAnswers before now (Gives act) after → Lowers now.turn act (left_to before) (left_to after) }
{}

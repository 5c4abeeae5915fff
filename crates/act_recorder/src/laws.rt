// The lines of small examples, by computation.

ghost use Rattle.std.specs.Prelude.{◌≡◌, codes, ◌∷◌, []};
ghost use Rattle.act_words.specs.Acts.{SeenBytes, SeenCall, SeenReply, Looked, Wrote, Passed, Replied};
ghost use Rattle.act_recorder.specs.Lines.{seen_text, release_text};

/// One line of each kind.
pub fn lines()
    ensures seen_bytes { seen_text (SeenBytes 16 (0 ∷ 171 ∷ [])) ≡ codes "{\"at\":16,\"hex\":\"00ab\",\"seen\":\"bytes\"}\n" }
    ensures seen_call { seen_text (SeenCall 0 (1 ∷ 2 ∷ [])) ≡ codes "{\"args\":[1,2],\"fun\":0,\"seen\":\"called\"}\n" }
    ensures seen_reply { seen_text (SeenReply 7) ≡ codes "{\"seen\":\"replied\",\"value\":7}\n" }
    ensures looked { release_text Looked ≡ codes "{\"release\":\"looked\"}\n" }
    ensures wrote { release_text (Wrote 16 (1 ∷ [])) ≡ codes "{\"at\":16,\"hex\":\"01\",\"release\":\"wrote\"}\n" }
    ensures passed { release_text (Passed 0 []) ≡ codes "{\"args\":[],\"fun\":0,\"release\":\"passed\"}\n" }
    ensures replied { release_text (Replied 3) ≡ codes "{\"release\":\"replied\",\"value\":3}\n" }
{}

// What holds of the runs of all images.

ghost use Rattle.std.specs.Prelude.{◌≡◌, ◌++◌, ◌∷◌, ◌<◌, ◌⊎◌, ℕ, IsTrue, List, Some};
ghost use Rattle.std.proofs.Common.{ℤ};
ghost use Rattle.act_words.specs.declared.act.Turn.TheVariants as turns;
ghost use Rattle.act_words.specs.declared.ending.Ending.{Ending};
ghost use Rattle.act_words.specs.declared.settings.Settings.{Settings};
ghost use Rattle.act_words.specs.Acts.{Act};
ghost use Rattle.act_words.specs.World.{Event};
ghost use Rattle.act_words.specs.View.{ViewIsFold, IsFront, releases_of, view_of, acts_of, due_front, view_fold};
ghost use Rattle.code_words.specs.Images.{Image};
ghost use Rattle.code_words.specs.Table.{Frame, Touch, State, Runs, Touches, Away, Goes};
ghost use Rattle.code_words.specs.Moves.{move};
ghost use Rattle.code_words.specs.Paced.{is_paced};
ghost use Rattle.code_words.specs.Left.{moves_left, LeavesTurn};
ghost use Rattle.code_words.specs.Runs.{CodeRun, exec, started, events_of};

/// Whatever the image is, what its run shows to the sandbox is determined by the sandbox's memory at the start, by the acts
/// that were taken, and by the releases.
pub fn view_is_fold()
    ensures { (image : Image) (settings : Settings) (inputs : List ℤ) (acts : List Act) (ending : Ending) (t : State)
        → CodeRun image settings inputs acts ending t → ViewIsFold (started image settings inputs acts).world.sandbox acts t.world }
{}

/// Two runs, of whichever images, inputs and settings, whose sandbox memories begin with the same bytes and whose releases
/// are the same: over one list of acts, the one view begins with the other. Where both took the same acts, whichever were
/// left behind them, the views are the same.
pub fn views_agree()
    ensures one_list { (first second : Image) (settings others : Settings) (inputs more : List ℤ) (acts : List Act) (ending end : Ending) (t u : State)
        → CodeRun first settings inputs acts ending t → CodeRun second others more acts end u
        → (started first settings inputs acts).world.sandbox ≡ (started second others more acts).world.sandbox
        → releases_of t.world.events ≡ releases_of u.world.events
        → IsFront (view_of t.world.events) (view_of u.world.events) ⊎ IsFront (view_of u.world.events) (view_of t.world.events) }
    ensures same_acts { (first second : Image) (settings others : Settings) (inputs more : List ℤ) (acts also taken : List Act)
        (ending end : Ending) (t u : State)
        → CodeRun first settings inputs acts ending t → CodeRun second others more also end u
        → (started first settings inputs acts).world.sandbox ≡ (started second others more also).world.sandbox
        → acts ≡ taken ++ t.world.acts → also ≡ taken ++ u.world.acts
        → releases_of t.world.events ≡ releases_of u.world.events
        → view_of t.world.events ≡ view_of u.world.events }
{}

/// The same up to the moment at which an act was due and none was left, if there was one: over all the acts, and the releases
/// up to there.
pub fn view_is_fold_before()
    ensures { (image : Image) (settings : Settings) (inputs : List ℤ) (acts : List Act) (ending : Ending) (t : State) (front : List Event)
        → CodeRun image settings inputs acts ending t → due_front t.world.events ≡ Some front
        → view_of front ≡ view_fold (started image settings inputs acts).world.sandbox acts (releases_of front) }
{}

/// What happened names the acts that the run took, one by one; behind them stand those that are left.
pub fn taken_are_told()
    ensures { (image : Image) (settings : Settings) (inputs : List ℤ) (acts : List Act) (ending : Ending) (t : State)
        → CodeRun image settings inputs acts ending t → acts ≡ acts_of t.world.events ++ t.world.acts }
{}

/// What happened after some moves has happened when the run ends, and more may have happened behind it.
pub fn events_stay()
    ensures { (image : Image) (settings : Settings) (inputs : List ℤ) (acts : List Act) (n : ℕ) (ending : Ending) (t : State)
        → CodeRun image settings inputs acts ending t
        → (more : List Event) × (t.world.events ≡ events_of (exec image settings n (started image settings inputs acts)) ++ more) }
{}

/// Behind an instruction of a paced image fewer moves are left. Behind an act fewer are left too, or as many where it leaves
/// the turn and makes no touch.
pub fn moves_fall()
    ensures instructions { (image : Image) (settings : Settings) (f : Frame) (s t : State) → IsTrue (is_paced image)
        → s.control ≡ Runs f → move image settings s ≡ Goes t → moves_left image settings t < moves_left image settings s }
    ensures touches { (image : Image) (settings : Settings) (f : Frame) (touch : Touch) (act : Act) (acts : List Act) (s t : State) → IsTrue (is_paced image)
        → s.control ≡ Touches f touch → s.world.acts ≡ act ∷ acts → move image settings s ≡ Goes t
        → (moves_left image settings t < moves_left image settings s) ⊎ ((moves_left image settings t ≡ moves_left image settings s)
        × LeavesTurn act turns.Trusted) }
    ensures sandbox { (image : Image) (settings : Settings) (act : Act) (acts : List Act) (s t : State) → IsTrue (is_paced image)
        → s.control ≡ Away → s.world.acts ≡ act ∷ acts → move image settings s ≡ Goes t
        → (moves_left image settings t < moves_left image settings s) ⊎ ((moves_left image settings t ≡ moves_left image settings s)
        × LeavesTurn act turns.Sandbox) }
{}

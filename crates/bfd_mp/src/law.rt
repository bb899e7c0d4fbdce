//! What the definitions of a head's and a tail's events promise by themselves, for callers that skip ticks.
ghost use Rattle.std.specs.Prelude.{◌≡◌, ◌<◌, ◌↔◌, ℕ, Bool, List, true, false, None, IsSome};
ghost use Rattle.bfd_num.specs.Numbers.{moment_bound, floor_tick};
ghost use Rattle.bfd_num.specs.Due.{has_come};
ghost use Rattle.bfd_packet.specs.Layout.{fields_of};
ghost use Rattle.bfd_rules.specs.declared.commands.Cmd.{Cmd};
ghost use Rattle.bfd_rules.specs.declared.outputs.Out.{Out};
ghost use Rattle.bfd_rules.specs.declared.variables.Mark.{Mark};
ghost use Rattle.bfd_rules.specs.declared.variables.Vars.{Vars};
ghost use Rattle.bfd_rules.specs.EventFrame.{Course, course, begins, is_unannounced, drawn};
ghost use Rattle.bfd_mp.specs.declared.config.HeadConfig.{HeadConfig};
ghost use Rattle.bfd_mp.specs.declared.config.TailConfig.{TailConfig};
ghost use Rattle.bfd_mp.specs.Waiting.{deadline};
ghost use Rattle.bfd_mp.specs.Sound.{IsHeadSteady, IsHeadSound, IsTailSound};
ghost use Rattle.bfd_mp.specs.HeadSettle as head;
ghost use Rattle.bfd_mp.specs.HeadFinish.{finish};
ghost use Rattle.bfd_mp.specs.TailSettle as tail;
ghost use Rattle.bfd_mp.specs.TailReceive.{IsSized, received};
ghost use Rattle.bfd_mp.specs.Command.{head_commanded, tail_commanded};
ghost use Rattle.bfd_rules.specs.Names.{AllNamed};

/// Laws of a head, and no work. With sound variables a tick by which nothing is due leaves the variables as they are and emits
/// nothing, so a caller may hand a tick to the due sessions alone. A tick and a command keep variables sound. And each
/// output of every part of an event names the head's discriminator.
pub fn head_laws()
    ensures rests { (c : HeadConfig) (limit eff : ℕ) (v : Vars) (os : List Out) → IsHeadSound v
        → has_come (floor_tick limit) v.tx_due ≡ false
        → finish c eff (head.settle c limit eff (course v (begins v) os)) ≡ course v (begins v) os }
    ensures tick_sound { (c : HeadConfig) (limit eff : ℕ) (s : Course) → eff < moment_bound → IsHeadSteady s.vars
        → IsHeadSound (finish c eff (head.settle c limit eff s)).vars }
    ensures command_sound { (c : HeadConfig) (limit eff : ℕ) (cmd : Cmd) (s : Course) → eff < moment_bound
        → IsHeadSteady s.vars
        → IsHeadSound (finish c eff (head_commanded c cmd (head.settle c limit eff s))).vars }
    ensures settle_named { (c : HeadConfig) (limit eff : ℕ) (s : Course) → AllNamed c.discr s.outs
        → AllNamed c.discr (head.settle c limit eff s).outs }
    ensures commanded_named { (c : HeadConfig) (cmd : Cmd) (s : Course) → AllNamed c.discr s.outs
        → AllNamed c.discr (head_commanded c cmd s).outs }
    ensures finish_named { (c : HeadConfig) (eff : ℕ) (s : Course) → AllNamed c.discr s.outs
        → AllNamed c.discr (finish c eff s).outs }
{}

/// Laws of a tail, and no work. A tick by which the deadline hasn't come changes nothing and emits nothing. A tick, a
/// packet and a command keep variables sound. A tick forgets the last packet if and only if the deadline has come by its
/// limit. Each output of every part of an event names the tail's discriminator. And the end of every other session's event
/// would do nothing here: no news is sent in a packet, and no due tick is drawn.
pub fn tail_laws()
    ensures rests { (c : TailConfig) (limit : ℕ) (s : Course) → has_come limit (deadline s.vars) ≡ false
        → tail.settle c limit s ≡ s }
    ensures tick_sound { (c : TailConfig) (limit : ℕ) (s : Course) → IsTailSound c s.vars
        → IsTailSound c (tail.settle c limit s).vars }
    ensures packet_sound { (c : TailConfig) (eff : ℕ) (raw : List ℕ) (s : Course) → eff < moment_bound
        → IsSized (fields_of raw)
        → IsTailSound c s.vars → IsTailSound c (received c eff raw s).vars }
    ensures command_sound { (c : TailConfig) (cmd : Cmd) (s : Course) → IsTailSound c s.vars
        → IsTailSound c (tail_commanded c cmd s).vars }
    ensures expires { (c : TailConfig) (limit : ℕ) (s : Course) → IsSome s.vars.heard
        → ((tail.settle c limit s).vars.heard ≡ None) ↔ (has_come limit (deadline s.vars) ≡ true) }
    ensures settle_named { (c : TailConfig) (limit : ℕ) (s : Course) → AllNamed c.discr s.outs
        → AllNamed c.discr (tail.settle c limit s).outs }
    ensures received_named { (c : TailConfig) (eff : ℕ) (raw : List ℕ) (s : Course) → AllNamed c.discr s.outs
        → AllNamed c.discr (received c eff raw s).outs }
    ensures commanded_named { (c : TailConfig) (cmd : Cmd) (s : Course) → AllNamed c.discr s.outs
        → AllNamed c.discr (tail_commanded c cmd s).outs }
    ensures announces_nothing { (c : TailConfig) (active : Bool) (m : Mark) (v : Vars) → IsTailSound c v
        → is_unannounced active m v ≡ false }
    ensures draws_nothing { (c : TailConfig) (active : Bool) (m : Mark) (v : Vars) → IsTailSound c v
        → drawn active m v ≡ v }
{}

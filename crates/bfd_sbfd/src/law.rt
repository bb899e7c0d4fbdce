//! What the definitions of an initiator's events promise by themselves, for callers that skip ticks.
ghost use Rattle.std.specs.Prelude.{◌≡◌, ◌<◌, ◌^◌, ◌↔◌, ℕ, List, true, false, None, IsSome};
ghost use Rattle.bfd_num.specs.Numbers.{moment_bound, floor_tick};
ghost use Rattle.bfd_num.specs.Due.{has_come};
ghost use Rattle.bfd_packet.specs.Layout.{fields_of};
ghost use Rattle.bfd_rules.specs.declared.commands.Cmd.{Cmd};
ghost use Rattle.bfd_rules.specs.declared.outputs.Out.{Out};
ghost use Rattle.bfd_rules.specs.declared.variables.Vars.{Vars};
ghost use Rattle.bfd_rules.specs.EventFrame.{Course, course, begins};
ghost use Rattle.bfd_sbfd.specs.declared.config.InitiatorConfig.{InitiatorConfig};
ghost use Rattle.bfd_sbfd.specs.Waiting.{deadline};
ghost use Rattle.bfd_sbfd.specs.Sound.{IsInitiatorSteady, IsInitiatorSound};
ghost use Rattle.bfd_sbfd.specs.Settle.{settle};
ghost use Rattle.bfd_sbfd.specs.Receive.{received};
ghost use Rattle.bfd_sbfd.specs.Command.{commanded};
ghost use Rattle.bfd_sbfd.specs.Finish.{finish};
ghost use Rattle.bfd_rules.specs.Names.{AllNamed};

/// Laws, and no work. With sound variables a tick by which nothing is due leaves the variables as they are and emits
/// nothing, so a caller may hand a tick to the due sessions alone. A tick, a packet and a command keep variables sound. A
/// tick forgets the last answer if and only if the deadline has come by its limit. And each output of every part of an
/// event names the session's discriminator.
#[tactic(auto, using(crate::proofs::Rest::tick_rests, crate::proofs::Soundness::tick_sound, crate::proofs::Soundness::packet_sound, crate::proofs::Soundness::command_sound, crate::proofs::Expiry::expires, crate::proofs::Naming::settle_named, crate::proofs::Naming::received_named, crate::proofs::Naming::commanded_named, crate::proofs::Naming::finish_named))]
pub fn initiator_laws()
    ensures rests { (c : InitiatorConfig) (limit eff : ℕ) (v : Vars) (os : List Out) → IsInitiatorSound c v
        → has_come limit (deadline v) ≡ false → has_come (floor_tick limit) v.tx_due ≡ false
        → finish c eff (settle c limit eff (course v (begins v) os)) ≡ course v (begins v) os }
    ensures tick_sound { (c : InitiatorConfig) (limit eff : ℕ) (s : Course) → eff < moment_bound → IsInitiatorSteady c s.vars
        → IsInitiatorSound c (finish c eff (settle c limit eff s)).vars }
    ensures packet_sound { (c : InitiatorConfig) (limit eff : ℕ) (raw : List ℕ) (s : Course) → eff < moment_bound
        → (fields_of raw).min_rx < 2 ^ 32 → IsInitiatorSteady c s.vars
        → IsInitiatorSound c (finish c eff (received c eff raw (settle c limit eff s))).vars }
    ensures command_sound { (c : InitiatorConfig) (limit eff : ℕ) (cmd : Cmd) (s : Course) → eff < moment_bound
        → IsInitiatorSteady c s.vars
        → IsInitiatorSound c (finish c eff (commanded c cmd (settle c limit eff s))).vars }
    ensures expires { (c : InitiatorConfig) (limit eff : ℕ) (s : Course) → IsSome s.vars.heard
        → ((finish c eff (settle c limit eff s)).vars.heard ≡ None) ↔ (has_come limit (deadline s.vars) ≡ true) }
    ensures settle_named { (c : InitiatorConfig) (limit eff : ℕ) (s : Course) → AllNamed c.discr s.outs
        → AllNamed c.discr (settle c limit eff s).outs }
    ensures received_named { (c : InitiatorConfig) (eff : ℕ) (raw : List ℕ) (s : Course) → AllNamed c.discr s.outs
        → AllNamed c.discr (received c eff raw s).outs }
    ensures commanded_named { (c : InitiatorConfig) (cmd : Cmd) (s : Course) → AllNamed c.discr s.outs
        → AllNamed c.discr (commanded c cmd s).outs }
    ensures finish_named { (c : InitiatorConfig) (eff : ℕ) (s : Course) → AllNamed c.discr s.outs
        → AllNamed c.discr (finish c eff s).outs }
{}

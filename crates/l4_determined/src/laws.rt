//! Laws: at most one step or act can come next.
ghost use Rattle.std.specs.Prelude.{◌≡◌, ℕ, List};
ghost use Rattle.l4_threads.specs.Threads.{Threads, IsConsistent};
ghost use Rattle.l4_ipc.specs.declared.calls.Call.{Call as ACall};
ghost use Rattle.l4_ipc.specs.declared.steps.Step.{Step as AStep};
ghost use Rattle.l4_ipc.specs.Following.{Done, AreNext};
ghost use Rattle.l4_ipc.specs.Machine.{Machine};
ghost use Rattle.l4_ipc.specs.Steps.{IsIdle, IsNext};
ghost use Rattle.l4_servers.specs.Acting.{ActsNext};
ghost use Rattle.l4_servers.specs.Servers.{Servers};
ghost use Rattle.l4_determined.specs.Memory.{NoneRanOut};

/// Ghost function: gives a proof that the next step of a kernel is one. `Kernel::law_consistent` gives the premise. It compiles to nothing.
pub fn the_next_step_is_one()
    ensures { (m : Machine) (s t : AStep) → IsConsistent m.threads → IsNext m s → IsNext m t → s ≡ t }
{}

/// Ghost function: gives a proof that the steps that come next, until none is enabled, lead to one machine, unless memory runs out in one
/// of them. It compiles to nothing.
pub fn next_steps_lead_to_one_machine()
    ensures { (old a b : Machine) (xs ys : List Done) → IsConsistent old.threads
        → AreNext old xs a → AreNext old ys b → IsIdle a → IsIdle b
        → NoneRanOut xs → NoneRanOut ys → a ≡ b }
{}

/// Ghost function: gives a proof that the served thread that acts next, its call, and the servers after it are one. It compiles to nothing.
pub fn the_next_act_is_one()
    ensures { (t : Threads) (old : Servers) (a b : ℕ) (c d : ACall) (u v : Servers)
        → ActsNext t old a c u → ActsNext t old b d v → (a ≡ b) × (c ≡ d) × (u ≡ v) }
{}

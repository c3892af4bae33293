//! The system whose orders are searched.
ghost use Rattle.std.specs.Prelude.{◌≡◌, ℕ, ◌<◌, ◌↔◌, Bool, true, List, IfOk, IsTrue};

/// Why a machine cannot go on from a state, although the system could.
#[derive(Clone, Copy, Debug, PartialEq, Eq)]
pub enum Failure {
    /// An allocation failed.
    Memory,
    /// A limit of the machine is reached.
    Full,
}

/// A state of a system with a fixed number of threads. Each thread has a list of things to do, and does the first one that is left when it
/// takes a turn. Threads are named by their places, from 0.
pub trait Machine: Drop {
    /// Whether the thread can take a turn.
    ghost enabled: { Self → ℕ → Bool };

    /// The thread takes a turn, which leads to this state.
    ghost Turns: { Self → ℕ → Self → Type 0 };

    /// The number of threads.
    ghost threads: { Self → ℕ };

    /// The name of the thread's turn: a number that says what the thread does.
    ghost name: { Self → ℕ → ℕ };

    /// The number of things that are left to do.
    ghost left: { Self → ℕ };

    /// The outcome of a state in which no thread can take a turn.
    ghost HasOutcome: { Self → List ℕ → Type 0 };

    /// Both are states of one system.
    ghost Akin: { Self → Self → Type 0 };

    /// The words are a key of the state.
    ghost HasKey: { Self → List ℕ → Type 0 };

    /// Returns the number of threads.
    fn threads(&self) -> usize
        ensures { result ≡ threads self.now };

    /// Returns whether the thread can take a turn.
    fn enabled(&self, thread: usize) -> bool
        ensures { result ≡ enabled self.now thread };

    /// Returns the state after a turn of the thread, or why the machine has none.
    fn after_turn(&self, thread: usize) -> Result<Self, Failure>
        requires { IsTrue (enabled self.now thread) }
        ensures { IfOk result (Turns self.now thread) };

    /// Returns the name of the thread's turn.
    fn name(&self, thread: usize) -> u64
        ensures { result ≡ name self.now thread };

    /// Returns the outcome of the state, or why the machine has none.
    fn outcome(&self) -> Result<Vec<u8>, Failure>
        ensures { IfOk result (λ bytes. HasOutcome self.now bytes.items) };

    /// Returns a key of the state, or why the machine has none. The search recognizes a state by its key.
    fn key(&self) -> Result<Vec<u32>, Failure>
        ensures { IfOk result (λ key. HasKey self.now key.items) };

    /// A thread that can take a turn is one of the threads.
    ghost within: { (s : Self) (thread : ℕ) → enabled s thread ≡ true → thread < threads s };

    /// After a turn, fewer things are left to do.
    ghost falls: { (s : Self) (thread : ℕ) (t : Self) → Turns s thread t → left t < left s };

    /// A state belongs to its own system.
    ghost own: { (s : Self) → Akin s s };

    /// A turn leads to a state of the same system.
    ghost stays: { (s : Self) (thread : ℕ) (t : Self) → Turns s thread t → (u : Self) → Akin s u ↔ Akin t u };

    /// No two states of one system have the same key.
    ghost one_state: { (s t : Self) (key : List ℕ) → Akin s t → HasKey s key → HasKey t key → s ≡ t };
}

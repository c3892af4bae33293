//! Laws of the words: what they determine, whatever follows them.
ghost use Rattle.std.specs.Prelude.{◌≡◌, ◌++◌, List, ℕ};
ghost use Rattle.l4_ipc.specs.Machine.{Machine};
ghost use Rattle.l4_names.specs.Names.{Names};
ghost use Rattle.l4_servers.specs.Servers.{Servers};
ghost use Rattle.l4_keys.specs.Keys.{AreOfKernel, AreOfServers};
ghost use Rattle.l4_keys.specs.Words.{names_words};

/// Ghost function: gives a proof that the words of a kernel determine it, and where they end. It compiles to nothing.
pub fn words_determine_kernels()
    ensures { (m n : Machine) (v w x y : List ℕ) → AreOfKernel m v → AreOfKernel n w → v ++ x ≡ w ++ y → (m ≡ n) × (x ≡ y) }
{}

/// Ghost function: gives a proof that the words of servers determine them, and where they end. It compiles to nothing.
pub fn words_determine_servers()
    ensures { (s t : Servers) (v w x y : List ℕ) → AreOfServers s v → AreOfServers t w → v ++ x ≡ w ++ y → (s ≡ t) × (x ≡ y) }
{}

/// Ghost function: gives a proof that the words of a list of names determine it, and where they end. It compiles to nothing.
pub fn words_determine_names()
    ensures { (xs ys : Names) (x y : List ℕ) → names_words xs ++ x ≡ names_words ys ++ y → (xs ≡ ys) × (x ≡ y) }
{}

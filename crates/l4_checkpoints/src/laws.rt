ghost use Rattle.std.specs.Prelude.{◌≡◌, ℕ, List};
ghost use Rattle.l4_ipc.specs.Machine.{Machine};
ghost use Rattle.l4_checkpoints.specs.Checkpoints.{IsCheckpoint};

/// Ghost function: the same bytes are a checkpoint of one machine only, with one number of frames and of entries. It compiles to nothing.
pub fn checkpoints_determine_kernels()
    ensures { (frames entries others more : ℕ) (m n : Machine) (bytes : List ℕ)
        → IsCheckpoint frames entries m bytes → IsCheckpoint others more n bytes
        → (frames ≡ others) × (entries ≡ more) × (m ≡ n) }
{}

ghost use Rattle.std.specs.Prelude.{◌≡◌};
ghost use Rattle.nc_words.specs.Settings.{standard, IsSetting};

/// What may be chosen for a run.
#[derive(Clone, Copy, Debug)]
pub struct Setting {
    /// Codes are drawn with this, the file's name and its generation.
    pub seed: [u8; 32],
    /// How many candidates a search for a code looks at before it gives up: 1 to 4096.
    pub budget: u16,
    /// How many pieces a file is mixed in at once: 1 to 16.
    pub workers: u8,
}

impl Setting {
    /// What holds where nothing is chosen: 32 zero bytes, 64 candidates, one piece.
    pub fn standard() -> Setting
        ensures value { result ≡ standard }
        ensures fits { IsSetting result }
    {
        Setting {
            seed: [0; 32],
            budget: 64,
            workers: 1,
        }
    }
}

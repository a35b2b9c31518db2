use nc_memory::{Damage, Torn};
use nc_name::{Blob, Sequence};

/// The words of a run, without the program's name and the list of clouds.
pub type WordList = Sequence<String>;

/// How the entries of a round are left, in their order.
pub type Fates = Sequence<Torn>;

/// Something that happens to clouds.
#[derive(Debug, Drop)]
pub enum Event {
    /// A run of these words with this input.
    Run {
        words: WordList,
        input: Blob,
    },
    /// The same, stopped in the round of this number, each of whose entries is left in its fate. The
    /// run's first round is round 0. Where the run has no round of that number, it is a `Run`. A
    /// missing fate counts as `Old`, and a surplus one isn't looked at.
    Stop {
        words: WordList,
        input: Blob,
        round: u64,
        fates: Fates,
    },
    /// A cloud loses objects.
    Lose {
        cloud: u8,
        damage: Damage,
    },
}

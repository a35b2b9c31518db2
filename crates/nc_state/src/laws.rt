//! Laws of what stands. Each function does nothing; its contract is the law, or some that belong together.

ghost use Rattle.nc_state.specs.ChunkLaws.{ChunksStay, FreeSlotIsFree, MendedIsFree, MendedIsValid, MendedKeepsChunks, MetasKeepChunks, NewPlacesStand, NothingToBeRight, OnlyRightIsSealed, RightIsMarked, RightIsTested, UntouchedStays, WrongIsDamaged};
ghost use Rattle.nc_state.specs.Commands.{MetasWritten, NothingMadeYet, NothingToSettle, RestsAfter, SettledIsTop, Settling, StaysAtRest};
ghost use Rattle.nc_state.specs.Laws.{AtRestIsAfter, EmptyStands, EntriesAgree, HealedStands, HeldIsSealed, LossKeeps, NoneDisputed, NoneMisplaced, NotBegun, RoundIsImage, SealedIsObject, SeenIsShown, StepSettlesOn, TopIsShown, TwoAtMost, UnlistedIsShown, UnlistedRests};

// ---- whole vaults

/// Clouds without objects stand for no names.
pub fn empty_stands()
    ensures { EmptyStands }
{}

/// A vault of which at most two clouds are damaged stands, whatever the last loss left of its cloud.
pub fn loss_keeps()
    ensures { LossKeeps }
{}

/// A cloud that was made whole is damaged no more.
pub fn healed_stands()
    ensures { HealedStands }
{}

/// A name that no cloud lists was never stored.
pub fn unlisted_rests()
    ensures { UnlistedRests }
{}

/// Entries count by name alone.
pub fn entries_agree()
    ensures { EntriesAgree }
{}

/// At most two clouds are two numbers at most.
pub fn two_at_most()
    ensures { TwoAtMost }
{}

// ---- the rounds of a command on one name

/// What a stop leaves of a round is one of its images.
pub fn round_is_image()
    ensures { RoundIsImage }
{}

/// A command that has done nothing has made no version; each image of its settling stands; a name without metadata is settled; and the
/// metadata that all clouds then hold is that of the version that is settled on.
pub fn settling()
    ensures nothing_yet { NothingMadeYet }
    ensures images { Settling }
    ensures nothing { NothingToSettle }
    ensures top { SettledIsTop }
{}

/// A name that was settled stays so through rounds of chunks and tidying.
pub fn stays_at_rest()
    ensures { StaysAtRest }
{}

/// Each image of a command's round of metadata stands.
pub fn metas_written()
    ensures { MetasWritten }
{}

/// A command on a name at rest, at its old version or at its new one, leaves the entry that a command leaves, and that is the name
/// at rest; while an entry stands as it was, no version is begun; an unfinished step is settled on its second version.
pub fn rests_after()
    ensures after { RestsAfter }
    ensures at_rest { AtRestIsAfter }
    ensures not_begun { NotBegun }
    ensures step { StepSettlesOn }
{}

// ---- what is seen

/// What the clouds that answered show of a name is what its entry shows; where they list nothing of it, it was never stored; where all
/// answered, their highest metadata is that of the version that is settled on.
pub fn seen_is_shown()
    ensures seen { SeenIsShown }
    ensures unlisted { UnlistedIsShown }
    ensures top { TopIsShown }
{}

/// Nothing of another cloud or width stands in place of metadata, and no two metas of the highest generation differ.
pub fn nothing_contradicts()
    ensures misplaced { NoneMisplaced }
    ensures disputed { NoneDisputed }
{}

/// To hold metadata is to hold a frame of this place whose payload is that of the metadata; and such a frame is its object.
pub fn held_is_sealed()
    ensures held { HeldIsSealed }
    ensures object { SealedIsObject }
{}

// ---- chunks

/// Chunks of a version at rest stay through rounds of other chunks and through tidying; those of every name through a round of metadata;
/// and a name whose objects are as they were stands for what it stood for.
pub fn chunks_stay()
    ensures at_rest { ChunksStay }
    ensures metas { MetasKeepChunks }
    ensures untouched { UntouchedStays }
{}

/// Chunks in the free slot overwrite none that the version before has.
pub fn free_slot_is_free()
    ensures { FreeSlotIsFree }
{}

/// Chunks of a new version stand where they are right, or are those of the version before. Of a name without a file none has to be
/// right.
pub fn new_places_stand()
    ensures places { NewPlacesStand }
    ensures nothing { NothingToBeRight }
{}

/// A repair keeps the chunks of all other clouds, its new ones overwrite no live ones, and the repaired version is valid.
pub fn mended()
    ensures keeps { MendedKeepsChunks }
    ensures free { MendedIsFree }
    ensures valid { MendedIsValid }
{}

/// Where chunks stand, nothing else is sealed in their places; a right chunk has the size and the digest that the metadata tells, and
/// a test tells that it is right; where one isn't, its cloud is damaged.
pub fn marks()
    ensures only { OnlyRightIsSealed }
    ensures right { RightIsMarked }
    ensures test { RightIsTested }
    ensures wrong { WrongIsDamaged }
{}

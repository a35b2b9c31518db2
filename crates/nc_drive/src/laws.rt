//! Laws of drives from clouds without objects. Each function does nothing; its contract is the law,
//! or some laws.

ghost use Rattle.nc_drive.specs.Laws.{AcknowledgedRepair, FewCausesStop, LastDoneIsPrinted, NoFileIsRemoved, NothingBegins, PutIsPrinted};

/// From clouds without objects on, what happened in a drive is a history of a vault, as long as no
/// loss leaves more than two clouds damaged. So all that is promised of histories holds of drives.
pub fn nothing_begins()
    ensures { NothingBegins }
{}

/// After any list of runs, stops and losses from clouds without objects, while damaged and failing
/// clouds are at most two together: bytes that a get prints are those of the last act on the name
/// that was answered Ok, or of a put since that was begun and not answered Ok, each wholly. Where it
/// finds no file, that act is a removal, or one was begun since. It never finds too few clouds.
pub fn get_after()
    ensures printed { LastDoneIsPrinted }
    ensures none { NoFileIsRemoved }
    ensures causes { FewCausesStop }
{}

/// After a put that was answered Ok, where no act since was begun that would give the name another
/// value, a get that is answered Ok prints its bytes.
pub fn put_then_get()
    ensures { PutIsPrinted }
{}

/// After any list of runs, stops and losses from clouds without objects: a repair that was answered
/// Ok took one of the two chunks that each other cloud holds of each file, and none from the cloud
/// that it repaired. Then the code of each file has a witness for each next loss, and the cloud isn't
/// damaged.
pub fn repair_after()
    ensures { AcknowledgedRepair }
{}

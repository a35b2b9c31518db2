//! Clouds side by side, in memory.
ghost use Rattle.std.specs.Prelude.{◌≡◌, ◌<◌, length, IfOk};
ghost use Rattle.nc_name.specs.Keys.{Slots};
ghost use Rattle.nc_frame.specs.Frames.{Whole};

use crate::keys::meta;
use nc_cloud::{Answer, Ask, CloudError, Done, Erase, Fanned, Fleet, Job};
use nc_frame::seal;
use nc_memory::{MemCloud, Torn};
use nc_name::{Key, Memory, Name};
use std::alloc::Global;
use std::test::Fail;

/// Two clouds, the first of which fails at its first call.
fn two(alloc: Global) -> Result<Vec<MemCloud>, Memory>
    ensures { IfOk result (λ clouds. length clouds.items ≡ 2) }
{
    let mut first = MemCloud::new(alloc);
    first.refuse(1, Torn::New)?;
    let mut clouds = Vec::new(alloc);
    clouds.push(first)?;
    clouds.push(MemCloud::new(alloc))?;
    Ok(clouds)
}

pub(crate) fn job(alloc: Global, cloud: u8, key: &Key) -> Result<Job, Memory>
    requires { Slots key.now }
    ensures cloud { IfOk result (λ job. job.cloud ≡ cloud) }
    ensures whole { IfOk result (λ job. Whole job.bytes) }
{
    let bytes = seal(alloc, cloud, 4, key, &[4, 4])?;
    Ok(Job {
        cloud,
        key: *key,
        bytes,
        done: Done::Waiting,
    })
}

fn ask(cloud: u8, key: &Key) -> Ask
    ensures { result.cloud ≡ cloud }
{
    Ask {
        cloud,
        key: *key,
        most: 58,
        answer: Answer::Waiting,
    }
}

/// How many objects a cloud lists before a delete and after it.
fn lens_listed<F: Fleet>(fleet: &mut F, cloud: u8, key: &Key) -> Result<[usize; 2], CloudError>
    requires ready { F.ready }
    requires below { cloud < F.clouds fleet.old }
{
    let before = fleet.list(cloud)?.items().len();
    let mut erases = [Erase {
        cloud,
        key: *key,
        done: Done::Waiting,
    }];
    fleet.delete_round(&mut erases);
    let after = fleet.list(cloud)?.items().len();
    Ok([before, after])
}

#[test]
fn clouds_side_by_side_serve_rounds(rt: HostRuntime) -> Result<(), Fail> {
    let key = meta(Name::read("a")?);
    let mut fleet = Fanned::new(rt, rt.alloc(), two(rt.alloc())?)?;
    let mut jobs = [job(rt.alloc(), 1, &key)?, job(rt.alloc(), 0, &key)?];
    fleet.put_round(&mut jobs);
    assert_eq!(rt; jobs[0].done, Done::Ok);
    assert_eq!(rt; jobs[1].done, Done::Failed);
    let mut asks = [ask(0, &key), ask(1, &key)];
    fleet.get_round(&mut asks);
    assert!(rt; matches!(asks[0].answer, Answer::Bytes(_)));
    assert!(rt; matches!(asks[1].answer, Answer::Bytes(_)));
    assert_eq!(rt; lens_listed(&mut fleet, 1, &key)?, [1, 0]);
    let clouds = fleet.into_clouds()?;
    assert_eq!(rt; clouds.len(), 2);
    Ok(())
}

// Groups of zones, which shares take one after another.
ghost use Rattle.std.specs.Fork.{slice_chunk};
ghost use Rattle.std.specs.Prelude.{◌≡◌, ℕ, ◌*◌, ◌<◌, ◌≤◌, length, get_or, replicate, All};
ghost use Rattle.std.specs.Prelude.{None, Some, slice_set, IfOk, OnOk};
ghost use Rattle.time_routes.specs.Searches.{AreOfZones, AreZones};
ghost use Rattle.labels.specs.declared.reading.group_labels.TheConstants.{MOST_GROUP};

use crate::answers::Answer;
use crate::search::Search;
use crate::table_pool::TablePool;
use labels::{MOST_GROUP, Spare};
use net_core::{Memory, ZoneNo};
use std::alloc::Global;
use std::sync::atomic::{AtomicUsize, Ordering};

/// What is answered of the vehicles that go to the zones of a group.
#[derive(Drop)]
pub(crate) struct GroupAnswers {
    pub(crate) group: usize,
    pub(crate) answers: Vec<Answer>,
}

/// Zones to which vehicles of a search go, in groups one after another.
#[derive(Clone, Copy, Drop)]
pub(crate) struct Groups<'a> {
    pub(crate) search: &'a Search<'a>,
    pub(crate) zones: &'a [ZoneNo],
    ghost within: { AreZones search.now zones.now },
}

// No answers yet of so many groups.
fn no_answers(alloc: Global, groups: usize) -> Result<Vec<Option<GroupAnswers>>, Memory>
    ensures { IfOk result (λ found. found.items ≡ replicate groups None) }
{
    let mut found = Vec::new(alloc);
    for _ in 0..groups {
        found.push(None)?;
    }
    Ok(found)
}

// Puts what is answered of a group in its place, where there is one.
fn put_group(found: &mut Vec<Option<GroupAnswers>>, of_group: GroupAnswers)
    ensures { found.new.items ≡ slice_set found.old.items of_group.group (Some of_group) }
{
    let group = of_group.group;
    if group < found.len() {
        found[group] = Some(of_group);
    }
}

// Takes what was found of a group.
fn take_found(found: &mut Vec<Option<GroupAnswers>>, group: usize) -> Option<GroupAnswers>
    requires { group < length found.old.items }
    ensures is { result ≡ get_or found.old.items group None }
    ensures found { found.new.items ≡ slice_set found.old.items group None }
{
    found[group].take()
}

impl<'a> Groups<'a> {
    ghost use Rattle.time_routes.specs.Groups.{IsFound, IsOfGroup};

    /// How many groups there are.
    pub(crate) fn count(&self) -> usize
        ensures inside { (group : ℕ) → group < result → group * MOST_GROUP
            < length self.now.zones.now }
        ensures all { length self.now.zones.now ≤ result * MOST_GROUP }
    {
        self.zones.len().div_ceil(MOST_GROUP)
    }

    // The zones of a group.
    fn group(&self, group: usize) -> &[ZoneNo]
        requires { group * MOST_GROUP < length self.now.zones.now }
        ensures { result.now ≡ slice_chunk self.now.zones.now MOST_GROUP group }
    {
        let (_, rest) = self.zones.split_at(group * MOST_GROUP);
        let (here, _) = rest.split_at(MOST_GROUP.min(rest.len()));
        here
    }

    /// What a share answers: it takes the next group of zones until none is left. Which groups it
    /// takes depends on the other shares.
    pub(crate) fn answers_of_share(
        &self,
        alloc: Global,
        next: &AtomicUsize,
        spare: Spare,
    ) -> Result<(Vec<GroupAnswers>, Spare), Memory>
        ensures { IfOk result (λ r. All (IsOfGroup self.now) r.0.items) }
    {
        let groups = self.count();
        let mut taken = Vec::new(alloc);
        let mut spare = spare;
        for _ in 0..groups {
            let group = next.fetch_add(1, Ordering::SeqCst);
            if group >= groups {
                break;
            }
            let (answers, rest) = self.search.answers_to(alloc, self.group(group), spare)?;
            spare = rest;
            taken.push(GroupAnswers { group, answers })?;
        }
        Ok((taken, spare))
    }

    // Puts what a share answered in the places of its groups.
    fn put_groups(&self, found: &mut Vec<Option<GroupAnswers>>, taken: Vec<GroupAnswers>)
        requires taken { All (IsOfGroup self.now) taken.items }
        requires found { All (IsFound self.now) found.old.items }
        ensures many { length found.new.items ≡ length found.old.items }
        ensures found { All (IsFound self.now) found.new.items }
    {
        let mut taken = taken;
        'each: while let Some(of_group) = taken.pop() {
            put_group(found, of_group);
        }
    }

    /// What the shares answered, in the order of groups.
    pub(crate) fn found_in(
        &self,
        alloc: Global,
        groups: usize,
        worked: Vec<Result<Vec<GroupAnswers>, Memory>>,
    ) -> Result<Vec<Option<GroupAnswers>>, Memory>
        requires { All (λ taken. IfOk taken (λ taken. All (IsOfGroup self.now) taken.items))
            worked.items }
        ensures many { IfOk result (λ found. length found.items ≡ groups) }
        ensures found { IfOk result (λ found. All (IsFound self.now) found.items) }
    {
        let mut found = no_answers(alloc, groups)?;
        let mut worked = worked;
        'each: while let Some(taken) = worked.pop() {
            self.put_groups(&mut found, taken?);
        }
        Ok(found)
    }

    /// What is answered of a group: what was found of it or, where no share took it, its answers
    /// anew, which the pool counts. Some share takes each group, and this way that needs no proof.
    pub(crate) fn answers_of_group(
        &self,
        alloc: Global,
        found: &mut Vec<Option<GroupAnswers>>,
        group: usize,
        pool: &TablePool,
    ) -> Result<Vec<Answer>, Memory>
        requires inside { group * MOST_GROUP < length self.now.zones.now }
        requires found { All (IsFound self.now) found.old.items }
        requires place { group < length found.old.items }
        ensures answers { IfOk result (λ answers. AreOfZones self.now.search.now
            (slice_chunk self.now.zones.now MOST_GROUP group) answers.items) }
        ensures found { OnOk result (All (IsFound self.now) found.new.items) }
        ensures many { length found.new.items ≡ length found.old.items }
    {
        if let Some(of_group) = take_found(found, group) {
            if of_group.group == group {
                return Ok(of_group.answers);
            }
        }
        pool.left.fetch_add(1, Ordering::SeqCst);
        let spare = Spare::none(alloc);
        let (answers, _) = self.search.answers_to(alloc, self.group(group), spare)?;
        Ok(answers)
    }
}

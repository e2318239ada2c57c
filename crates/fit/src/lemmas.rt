// The lemmas of a table: each place of each lemma, as used or as unused. w is how many items there are.
ghost use Rattle.std.specs.Prelude.{◌≡◌, cond, ◌+◌, ◌*◌, ◌<◌, eqb, pos, get_or};
ghost use Rattle.lists.specs.Tests.{all, within};
ghost use Rattle.job.specs.Limits.{max_lemmas, max_names};
ghost use Rattle.job.specs.Fitness.{item_fits, place_fits, lemma_fits, lemmas_fit};

use job::Job;

// An item is of the job by its place, whatever its sign.
fn item_fits(w: usize, item: i16) -> bool
    ensures { result ≡ item_fits w item }
{
    (1..=w).contains(&usize::from(item.unsigned_abs()))
}

// Place i of a lemma of n names.
#[tactic(auto, unfolding(job::specs::Fitness::place_fits))]
fn place_fits(w: usize, n: usize, i: usize, item: i16) -> bool
    ensures { result ≡ place_fits w n i item }
{
    if i < n { item_fits(w, item) } else { item == 0 }
}

#[tactic(auto, unfolding(lists::specs::Tests::within, lists::specs::Tests::every))]
fn length_fits(used: bool, n: usize) -> bool
    ensures { result ≡ cond used (within 1 max_names n) (eqb n 0) }
{
    if used {
        (1..=Job::NAMES).contains(&n)
    } else {
        n == 0
    }
}

// The places of lemma k, of n names.
#[tactic(auto, using(lists::proofs::TestLaws::all_of, lists::proofs::TestLaws::all_fails))]
fn places_fit(job: &Job, w: usize, n: usize, k: usize) -> bool
    requires { k < max_lemmas }
    ensures { result ≡ all max_names (λ i. place_fits w n i (get_or job.now.items (k * max_names + i) (pos 0))) }
{
    for i in 0..Job::NAMES {
        if !place_fits(w, n, i, job.items[k * Job::NAMES + i]) {
            return false;
        }
    }
    true
}

fn lemma_fits(job: &Job, w: usize, k: usize) -> bool
    requires { k < max_lemmas }
    ensures { result ≡ lemma_fits job.now.lengths job.now.items job.now.lemmas w k }
{
    let n = usize::from(job.lengths[k]);
    length_fits(k < job.lemmas, n) && places_fit(job, w, n, k)
}

#[tactic(auto, unfolding(job::specs::Fitness::lemmas_fit), using(lists::proofs::TestLaws::all_of, lists::proofs::TestLaws::all_fails))]
pub(crate) fn lemmas_fit(job: &Job, w: usize) -> bool
    ensures { result ≡ lemmas_fit job.now.lengths job.now.items job.now.lemmas w }
{
    for k in 0..Job::LEMMAS {
        if !lemma_fits(job, w, k) {
            return false;
        }
    }
    true
}

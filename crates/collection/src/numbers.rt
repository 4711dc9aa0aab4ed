//! What a policy goes by: when which step of the collector is due.
//!
//! Nothing is promised of these numbers, and any will do: the theorem of `make` holds whatever they are. They decide how often the
//! collector works, and how much at a time.

ghost use Rattle.std.specs.Prelude.{◌≡◌, ◌-◌, ◌*◌, ◌/◌, ◌<◌, ◌≤◌, ◌^◌, true, false, max, min, nat_le, if◌then◌else◌};

use heap_steps::{CollectorStep, Reply};
use heap_words::config::Config;
use step_core::Core;

/// A policy's numbers and counts. A client may set the first nine at any time; the others are the policy's
/// own.
#[repr(C)]
#[derive(Clone, Copy, Debug, PartialEq, Eq, Drop)]
pub struct Policy {
    /// Regions: a cycle of marking ends before fewer are free.
    pub reserve: u32,
    /// Words: the budget of a pause, but for those of a whole collection.
    pub pause_words: u32,
    /// Words: as many are looked at by marking at a look, at most, and up to 16 times as many where few regions are free.
    pub mark_words: u32,
    /// Words: where so many were asked for since the last cycle began, another one begins.
    pub cycle_words: u32,
    /// Words: new regions of so many are evacuated first, and no fewer later.
    pub young_words: u32,
    /// Cards: where more are queued at a look, it refines all but half as many.
    pub cards_left: u32,
    /// Cards: as many may lead into the regions of a pause, and more only after one that gained little for them.
    pub visit_cards: u32,
    /// Objects with weak slots: so many are cleared at a look after marking, and up to 16 times as many where few regions are free.
    pub clear_objects: u32,
    /// Regions: so many are in play at least.
    pub least: u32,
    /// Words that may be asked for before the next look, as it was set, and what is left of them.
    pub look: u32,
    pub left: u32,
    /// Regions: where so many are free, or fewer, a cycle begins.
    pub begin_at: u32,
    /// Regions: where so many are free, or fewer, new regions are evacuated; 0 where that brings little.
    pub young_at: u32,
    /// Regions: so many are new then, so many of them are to be evacuated still, and so many that brought.
    pub span: u32,
    pub young: u32,
    pub gained: u32,
    /// Regions: after a cycle regions are evacuated until so many are free; 0 where that is over.
    pub wanted: u32,
    /// Regions: so many are held back. Cycles begin, go and evacuate as in a heap of the others, which are in play; but what finds no room
    /// among these takes those held back too. And the most that were in play since `collect_down`, or since a client set that to 0.
    pub held: u32,
    pub most: u32,
    /// Whether no more than half of these are in play: 1, so that a client may give memory back, else 0.
    pub idle: u32,
    /// Words that marking looks at, at each look of a cycle, or more where few regions are free.
    pub pace: u32,
    /// Cards that may lead into the regions of the next pause, if more than `visit_cards`.
    pub visits: u32,
    /// Looks at which weak slots were cleared since the last marking, and after the marking before it. One that cleared several times
    /// `clear_objects` counts as so many.
    pub clears: u32,
    pub cleared: u32,
    /// What the last look did: 1 if it refined alone, 2 if it evacuated new regions, else 0.
    pub last: u32,
    /// What the last whole collection left: the free regions, the live words and the next name. While these stay no object was made, and
    /// none died, so that pauses gain nothing more.
    pub packed_free: u32,
    pub packed_live: u64,
    pub packed_next: u64,
    /// Words that were copied for what was gained.
    pub paid: u64,
    /// Words asked for since the last cycle began.
    pub asked: u64,
    /// Words to be asked for before the next pause, while regions enough are free.
    pub rest: u64,
    /// Words that the marking of the running cycle looked at, and that of the last one; in the first one an estimate of them.
    pub looked: u64,
    pub marked: u64,
    /// Cycles that ended, and the objects that they marked.
    pub cycles: u64,
    pub scanned: u64,
    /// Pauses, those of whole collections too, and the words that they copied.
    pub pauses: u64,
    pub copied: u64,
    /// Compactions, and the words that they copied.
    pub compactions: u64,
    pub compacted: u64,
}

/// How many regions a pause evacuated, and how many words it copied.
pub(crate) fn moved(reply: Reply) -> (u32, u64) {
    match reply {
        Reply::Moved { regions, words } => (regions, u64::from(words)),
        _ => (0, 0),
    }
}

/// How many whole regions have so many words, 1 at least.
fn regions_of(config: &Config, words: u32) -> u32 {
    (words / config.words.max(1)).max(1)
}

/// Words: the budget of a pause, a 32nd of the heap, 98,304 at least and 262,144 at most, or four regions if that is more. Smaller pauses
/// visit the same cards again and again.
fn pause_budget(config: &Config) -> u32
    ensures regions { min (config.now.words * 4) (2 ^ 32 - 1) ≤ result }
    ensures words { 98304 ≤ result }
{
    let all = u64::from(config.regions) * u64::from(config.words);
    let share = (all / 32).min(262144).max(98304) as u32;
    config.words.saturating_mul(4).max(share)
}

/// Regions: so many are in play at least, and when a heap begins: as many as have 16,777,216 words, but 64 at least, or all.
fn least_regions(config: &Config) -> u32
    ensures { result ≡ min (max (16777216 / max config.now.words 1) 64) config.now.regions }
{
    (16777216 / config.words.max(1)).max(64).min(config.regions)
}

/// Regions: so many are to be in play, where so many are, and what lives fills so many. Where it fills less than 40 percent of them, or
/// more than 65, so many that it fills 40. Where it fills more than 45, a third of the way to that, since less may live at the next
/// cycle, and what was touched stays taken; but so many that it fills 55 at most.
fn apt_regions(full: u64, now: u64) -> u64 {
    let aim = full.saturating_mul(5) / 2;
    let share = full.saturating_mul(20);
    if now > aim || share > now.saturating_mul(13) {
        aim
    } else if share > now.saturating_mul(9) {
        now.saturating_add((aim - now) / 3).max(share / 11)
    } else {
        now
    }
}

/// How many cards the heap has.
fn cards_of(config: &Config) -> u32 {
    let words = u64::from(config.regions) * u64::from(config.words);
    (words / u64::from(config.card_words().max(1))).min(u64::from(u32::MAX)) as u32
}

/// Words: as many are looked at by marking at a look, at most: 16 regions, 131,072 at least and 524,288 at most, or four regions if that is
/// more.
fn marked_words(config: &Config) -> u32
    ensures { min (config.now.words * 4) (2 ^ 32 - 1) ≤ result }
{
    let share = config.words.saturating_mul(16).max(131072).min(524288);
    config.words.saturating_mul(4).max(share)
}

/// A look at which cards were refined and nothing else was done, and one at which new regions were evacuated.
pub(crate) const REFINED: u32 = 1;

pub(crate) const EVACUATED: u32 = 2;

/// Regions: a reserve of so many has room for looks that clear weak slots.
const LONG_RESERVE: u32 = 16;

/// How many times `clear_objects` a look clears below the reserve.
const HURRIED_CLEARS: u32 = 16;

impl Policy {
    ghost use Rattle.collection.specs.Numbers.{IsStarted};

    /// A policy for a new heap of these sizes.
    ///
    /// ```rust
    /// let mut policy = Policy::new(&config);
    /// ```
    pub fn new(config: &Config) -> Policy
        ensures { IsStarted config.now result }
    {
        let reserve = (config.regions / 24).max(3);
        let young_words = 131072;
        let least = least_regions(config);
        let span = regions_of(config, young_words).min((least / 4).max(1));
        let mut policy = Policy {
            reserve,
            pause_words: pause_budget(config),
            mark_words: marked_words(config),
            cycle_words: config
                .regions
                .saturating_mul(config.words)
                .saturating_mul(4),
            young_words,
            cards_left: 4096,
            visit_cards: config.words.max(16384).min(65536),
            clear_objects: 16384,
            least,
            look: 0,
            left: 0,
            begin_at: 0,
            young_at: config.regions.saturating_sub(span),
            span,
            young: 0,
            gained: 0,
            wanted: 0,
            held: config.regions.saturating_sub(least),
            most: least,
            idle: 0,
            pace: 0,
            visits: 0,
            clears: 0,
            cleared: 0,
            last: 0,
            packed_free: 0,
            packed_live: 0,
            packed_next: u64::MAX,
            paid: 0,
            asked: 0,
            rest: 0,
            looked: 0,
            marked: 0,
            cycles: 0,
            scanned: 0,
            pauses: 0,
            copied: 0,
            compactions: 0,
            compacted: 0,
        };
        policy.begin_at = policy.kept(config).saturating_add(least / 8);
        policy
    }

    /// How many regions are in play: those that aren't held back.
    fn in_play(&self, config: &Config) -> u32 {
        config.regions.saturating_sub(self.held)
    }

    /// Regions: the reserve of those in play, and those held back. A cycle marks so that it ends before fewer are free.
    fn kept(&self, config: &Config) -> u32 {
        let share = u64::from(self.reserve) * u64::from(self.in_play(config))
            / u64::from(config.regions.max(1));
        let reserve = share.max(3).min(u64::from(self.reserve)) as u32;
        self.held.saturating_add(reserve)
    }

    /// Regions: so many of those held back are used at least before another cycle begins, where too few others are free: so evacuation has
    /// its turn.
    fn borrowed(&self, config: &Config, free: u32) -> u32 {
        self.in_play(config).min(self.held).min(free) / 8
    }

    /// Words: where so many were asked for since the last cycle began, another one begins: the share of `cycle_words` of those in play.
    pub(crate) fn most_asked(&self, config: &Config) -> u64 {
        u64::from(self.cycle_words) * u64::from(self.in_play(config))
            / u64::from(config.regions.max(1))
    }

    /// Sets how many regions are in play, where so many words live: as many as `apt_regions` says, but `least` at least.
    pub(crate) fn plan_size(&mut self, config: &Config, live: u64) {
        let full = (live / u64::from(config.words.max(1))).min(u64::from(config.regions)) + 1;
        let in_play = apt_regions(full, u64::from(self.in_play(config)))
            .max(u64::from(self.least))
            .min(u64::from(config.regions)) as u32;
        self.held = config.regions.saturating_sub(in_play);
        self.most = self.most.max(in_play);
        self.idle = u32::from(in_play <= self.most / 2);
    }

    /// Takes note of what a whole collection left, and plans the next cycle.
    pub(crate) fn note_packed(&mut self, core: &Core) {
        let config = core.config();
        self.packed_free = core.free_regions();
        self.packed_live = core.live_words();
        self.packed_next = core.next_name();
        self.plan_size(&config, self.packed_live);
        self.plan_cycle(&config, self.packed_free);
    }

    /// Takes note of a whole collection after which memory goes back, so that no more regions were in play since.
    pub(crate) fn note_down(&mut self, core: &Core) {
        self.note_packed(core);
        self.most = self.in_play(&core.config());
        self.idle = 0;
    }

    /// Whether that is what there is.
    pub(crate) fn left_so(&self, core: &Core) -> bool {
        core.free_regions() == self.packed_free
            && core.live_words() == self.packed_live
            && core.next_name() == self.packed_next
    }

    /// Counts what a step of the collector did.
    pub(crate) fn count(&mut self, step: CollectorStep, reply: Reply) {
        match reply {
            Reply::Marked(objects) => {
                self.marked = self.looked.max(u64::from(objects) * 2);
                self.cycles = self.cycles.wrapping_add(1);
                self.scanned = self.scanned.wrapping_add(u64::from(objects));
            }
            Reply::Moved { words, .. } if matches!(step, CollectorStep::Compact(_)) => {
                self.compactions = self.compactions.wrapping_add(1);
                self.compacted = self.compacted.wrapping_add(u64::from(words));
            }
            Reply::Moved { words, .. } => {
                self.pauses = self.pauses.wrapping_add(1);
                self.copied = self.copied.wrapping_add(u64::from(words));
            }
            _ => {}
        }
    }

    /// Whether so many words may be asked for before the next look. They are asked for then.
    #[inline(always)]
    pub(crate) fn spends(&mut self, size: u64) -> bool
        ensures due { nat_le self.old.left size ≡ (if result then false else true) }
        ensures spent { result ≡ true → self.new.left ≡ self.old.left - size }
        ensures begins { self.new.begin_at ≡ self.old.begin_at }
    {
        let left = u64::from(self.left);
        if size < left {
            self.left = (left - size) as u32;
            true
        } else {
            false
        }
    }

    /// How many words may be asked for before the next look, once an object is made: half a region where a look was due.
    pub(crate) fn left_after(&self, config: &Config, due: bool) -> u32
        ensures { result ≡ (if due then config.now.words / 2 else self.now.left) }
    {
        if due { config.words / 2 } else { self.left }
    }

    /// The next look is due after half a region of words.
    pub(crate) fn look_on(&mut self, config: &Config, size: u64)
        ensures { self.new.begin_at ≡ self.old.begin_at }
    {
        let asked = u64::from(self.look).saturating_add(size);
        self.asked = self.asked.saturating_add(asked);
        self.rest = self.rest.saturating_sub(asked);
        self.look = config.words / 2;
        self.left = self.look;
    }

    /// Sets how fast a cycle marks: three times as fast as it would take to end at the reserve, where marking looks at so many words by
    /// estimate. What is left of an evacuation waits for the end of the cycle.
    pub(crate) fn plan_marking(&mut self, config: &Config, free: u32, words: u64) {
        let room = u64::from(free.saturating_sub(self.kept(config)).max(1));
        let pace = 64 + words.min(u64::from(u32::MAX)) * 3 / 2 / room;
        self.pace = pace.min(u64::from(self.mark_words)) as u32;
        self.asked = 0;
        self.wanted = 0;
        self.looked = 0;
        self.marked = words;
    }

    /// Words that marking looks at, at the next look. They are as many as `plan_marking` set, and `mark_words` where those in play are used
    /// up, which the estimate may not tell: less may have lived at the last marking. They are more where few regions are free above
    /// the reserve, so that it ends before that is reached; 16 times `mark_words` at most. What is left is by what the last marking
    /// looked at, and a 16th of that at least.
    pub(crate) fn spend_marks(&mut self, config: &Config, free: u32) -> u32 {
        let room = u64::from(free.saturating_sub(self.reserve).max(1));
        let left = self
            .marked
            .saturating_sub(self.looked)
            .max(self.marked / 16);
        let due = left.min(u64::from(u32::MAX)) * 5 / 4 / room;
        let most = self.mark_words.saturating_mul(16);
        let hurried = due.min(u64::from(most)) as u32;
        let pace = if free <= self.kept(config) {
            self.mark_words
        } else {
            self.pace.min(self.mark_words)
        };
        let words = pace.max(hurried);
        self.looked = self.looked.saturating_add(u64::from(words));
        words
    }

    /// Looks: as many as a cycle takes that marks and clears as much as the last one, and half as many more for marking.
    fn cycle_looks(&self) -> u64 {
        let words = self.marked.min(u64::from(u32::MAX));
        let marking = words * 3 / 2 / u64::from(self.mark_words.max(1));
        marking.saturating_add(u64::from(self.cleared))
    }

    /// Regions: so many are free, or fewer, where a quarter of those in play that are free now is used up, or as many as `borrowed` says.
    fn spent_to(&self, config: &Config, free: u32) -> u32 {
        let rest = u64::from(free.saturating_sub(self.held));
        let quarter = rest - rest * 3 / 4;
        let spent = quarter.max(u64::from(self.borrowed(config, free)));
        u64::from(free).saturating_sub(spent).min(u64::from(free)) as u32
    }

    /// After a pause that follows a cycle: once a quarter of the regions that are free now is used up, the next cycle begins as early as it
    /// must to end before the reserve is reached.
    pub(crate) fn plan_next(&mut self, config: &Config, free: u32) {
        let due = u64::from(self.kept(config)).saturating_add(self.cycle_looks());
        let begin_at = due.min(u64::from(self.spent_to(config, free))) as u32;
        self.begin_at = self.begin_at.max(begin_at);
    }

    /// Sets how many regions are in play: what was asked for since the cycle began doesn't count as live for that. And until how many free
    /// regions those that hold little live are evacuated after it: three quarters of what is to be had. Where a quarter of the free ones is
    /// used up meanwhile another cycle begins.
    pub(crate) fn plan_evacuation(&mut self, config: &Config, free: u32, live: u64) {
        self.plan_size(config, live.saturating_sub(self.asked));
        let all = u64::from(self.in_play(config)) * u64::from(config.words);
        let most = (all.saturating_sub(live) / u64::from(config.words).max(1)).min(u64::from(
            u32::MAX,
        )) as u32;
        let reserve = self.kept(config).saturating_sub(self.held);
        let wanted = (most - most / 4).max(reserve.saturating_mul(2)).max(1);
        self.wanted = self.held.saturating_add(wanted);
        self.begin_at = self.begin_at.min(self.spent_to(config, free));
        self.visits /= 2;
        self.cleared = self.clears;
        self.clears = 0;
    }

    /// The budget of a pause after a cycle, at most so many words: what it takes to empty regions of the usual density until as many are
    /// free as are wanted.
    pub(crate) fn evacuation_budget(
        &self,
        config: &Config,
        free: u32,
        live: u64,
        most: u32,
    ) -> u32 {
        let words = u64::from(config.words);
        let used = u64::from(config.regions.saturating_sub(free)) * words;
        let garbage = used.saturating_sub(live);
        if garbage == 0 {
            return most;
        }
        let more = u64::from(self.wanted.saturating_sub(free)) * words;
        let budget = more.saturating_mul(live) / garbage;
        budget.min(u64::from(most)) as u32
    }

    /// Whether a pause after a cycle brought enough for another one to follow.
    pub(crate) fn pays(&self, config: &Config, before: u32, after: u32, copied: u64) -> bool
        ensures { result ≡ true → before < after }
    {
        if after <= before || after >= self.wanted {
            return false;
        }
        let gained = u64::from(after - before) * u64::from(config.words);
        after <= self.reserve || copied <= gained.saturating_mul(4)
    }

    /// Objects with weak slots: so many are cleared at the next look. It is `clear_objects`; but where fewer regions are free above the
    /// reserve than clearing has looks left, by those after the last marking, two, three or four times as many, so that it ends before the
    /// reserve is reached. It counts as so many looks.
    pub(crate) fn spend_clears(&mut self, config: &Config, free: u32) -> u32 {
        let room = free.saturating_sub(self.kept(config)).max(1);
        let looks = 1 + (self.cleared.saturating_sub(self.clears) / room).min(3);
        self.clears = self.clears.saturating_add(looks);
        self.clear_objects.saturating_mul(looks)
    }

    /// Regions: where no more are free, all weak slots are cleared at once. It is a quarter of the reserve, or all of a short one.
    pub(crate) fn clear_until(&self) -> u32 {
        if self.reserve < LONG_RESERVE {
            self.reserve
        } else {
            self.reserve / 4
        }
    }

    /// Objects with weak slots: so many are cleared at a look below the reserve.
    pub(crate) fn hurried_clears(&self) -> u32 {
        self.clear_objects.saturating_mul(HURRIED_CLEARS)
    }

    /// Counts them as so many looks, where that wasn't the end of clearing.
    pub(crate) fn note_clears(&mut self)
        ensures { self.new.begin_at ≡ self.old.begin_at }
    {
        self.clears = self.clears.saturating_add(HURRIED_CLEARS);
    }

    /// How many cards may lead into the regions of a pause.
    pub(crate) fn visited(&self) -> u32 {
        self.visits.max(self.visit_cards)
    }

    /// Whether a pause that took no region may have found too many cards for each.
    pub(crate) fn is_bounded(&self, config: &Config) -> bool {
        self.visited() < cards_of(config)
    }

    /// Whether pauses rest: fewer words were asked for since the last one than `note_pause` set, and regions enough are free.
    pub(crate) fn rests(&self, config: &Config, free: u32) -> bool {
        let reserve = self.kept(config).saturating_sub(self.held);
        let wanted = self.wanted.saturating_sub(self.held) / 3;
        self.rest != 0
            && free
                > self
                    .held
                    .saturating_add(reserve.saturating_mul(2).max(wanted))
    }

    /// Takes note of a pause within cards, after which so many are queued. If it gained fewer words than the cards that it might visit,
    /// the next one may visit twice as many, and half as many if it gained four times as many, or after a cycle. A card counts for each
    /// region that it may lead into, so more than all cards may be needed. The next one rests until a fourth of its
    /// work is asked for, a word copied counted as one and a card that it left as 32, but for no more than half of what it gained.
    pub(crate) fn note_pause(
        &mut self,
        config: &Config,
        before: u32,
        after: u32,
        reply: Reply,
        queued: u32,
    ) {
        let gained = u64::from(after.saturating_sub(before)) * u64::from(config.words);
        let visits = self.visited();
        if gained < u64::from(visits) {
            let most = cards_of(config).saturating_mul(16);
            self.visits = visits.saturating_mul(2).min(most);
        } else if gained / 4 >= u64::from(visits) {
            self.visits = visits / 2;
        }
        let work = moved(reply).1.saturating_add(u64::from(queued) * 32);
        self.rest = (work / 4).min(gained / 2);
    }

    /// Sets when the next cycle begins, and when new regions are evacuated before it. It has as much room as it takes to mark what the last
    /// one marked, and to clear weak slots at as many looks as after it.
    pub(crate) fn plan_cycle(&mut self, config: &Config, free: u32) {
        let kept = self.kept(config);
        let room = free.saturating_sub(kept);
        self.wanted = 0;
        self.begin_at = if room < 2 {
            free.saturating_sub(self.borrowed(config, free).max(1))
        } else {
            let needed = self.cycle_looks().min(u64::from(room / 4 * 3)) as u32;
            kept.saturating_add((room / 4).min(self.in_play(config) / 8).max(needed))
        };
        self.plan_young(config, free, self.span);
    }

    /// Sets when new regions are evacuated next: when so many are filled, or the least number of them if that is more; but at the latest
    /// half of the way to the next cycle.
    pub(crate) fn plan_young(&mut self, config: &Config, free: u32, span: u32) {
        let way = free.saturating_sub(self.begin_at) / 2;
        self.young = 0;
        self.span = span.max(regions_of(config, self.young_words)).min(way);
        self.young_at = if way <= self.in_play(config) / 64 {
            0
        } else {
            free.saturating_sub(self.span)
        };
    }

    /// Whether new regions are to be evacuated now, some at each look.
    pub(crate) fn is_young_due(&mut self, free: u32) -> bool
        ensures { result ≡ false → self.new ≡ self.old }
    {
        if self.young != 0 {
            return true;
        }
        if free > self.young_at {
            return false;
        }
        self.young = self.span.max(1);
        self.gained = 0;
        self.paid = 0;
        true
    }

    /// Whether new regions are evacuated at this look: not twice in turn, and not while pauses rest.
    pub(crate) fn is_young_turn(&mut self, config: &Config, free: u32) -> bool
        ensures { result ≡ false → self.new ≡ self.old }
    {
        if self.last == EVACUATED || self.rests(config, free) {
            return false;
        }
        self.is_young_due(free)
    }

    /// Takes note of a pause of new regions. If its budget left some of them, and not the room for copies, and these pauses brought enough,
    /// the next look goes on with those. Else the next ones are due later: after more words, if much was copied for what was gained, and
    /// after fewer, if little was. They aren't due before the next cycle, if more than half of what was taken was copied; before the first
    /// one only if they can't be more.
    pub(crate) fn note_young(&mut self, config: &Config, before: u32, after: u32, reply: Reply) {
        let (regions, words) = moved(reply);
        self.gained = self.gained.saturating_add(after.saturating_sub(before));
        self.paid = self.paid.saturating_add(words);
        let worth = u64::from(self.gained) * u64::from(config.words);
        let room = u64::from(before) * u64::from(config.words);
        let is_cut_short = u64::from(self.pause_words) * 2 < room;
        if regions != 0 && regions < self.young && self.paid <= worth && is_cut_short {
            self.young -= regions;
            return;
        }
        let was = self.span;
        let span = if self.paid > worth / 8 {
            was.saturating_mul(4)
        } else if self.paid <= worth / 32 {
            was / 2
        } else {
            was
        };
        self.plan_young(config, after, span);
        if self.paid > worth && (self.span <= was || self.cycles != 0) {
            self.young_at = 0;
        }
    }
}

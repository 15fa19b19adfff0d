//! Whole runs of searches, and the words that they end with.
use crate::claims::ensure;
use crate::runs::{Counts, Hash, Lesson, NOTHING, learnt};
use key_tuple::{Match, Params};
use learning::{Info, is_info_of, pack, unpack};

const NONE: Match = Match {
    fields: 0,
    bytes: 0,
};

const ONE: Match = Match {
    fields: 1,
    bytes: 0,
};

const TWO: Match = Match {
    fields: 2,
    bytes: 0,
};

/// Three puts into an empty leaf, then the same key sought 300 times.
static HITS: Lesson = Lesson {
    unique: 1,
    room: true,
    searches: &[
        (3, NONE, NONE, 3, Hash::Answers),
        (300, NONE, ONE, 3, Hash::Answers),
    ],
    counts: Counts {
        hit: 169,
        cold: 134,
        built: 1,
        first_due: 129,
        ..NOTHING
    },
};

/// The same where the hash fails.
static MISSES: Lesson = Lesson {
    unique: 1,
    room: true,
    searches: &[
        (3, NONE, NONE, 3, Hash::Fails),
        (300, NONE, ONE, 3, Hash::Fails),
    ],
    counts: Counts {
        cold: 158,
        unequal: 145,
        built: 1,
        same: 24,
        first_due: 129,
        ..NOTHING
    },
};

/// The same where there is no room.
static NO_ROOM: Lesson = Lesson {
    unique: 1,
    room: false,
    searches: &[
        (3, NONE, NONE, 3, Hash::Answers),
        (300, NONE, ONE, 3, Hash::Answers),
    ],
    counts: Counts {
        cold: 303,
        arena: 172,
        first_due: 129,
        ..NOTHING
    },
};

/// A group of keys is sought before the first one is put in, with the others, and once they are there.
static GROUP: Lesson = Lesson {
    unique: 3,
    room: true,
    searches: &[
        (1, NONE, NONE, 0, Hash::Answers),
        (3, ONE, NONE, 3, Hash::Answers),
        (200, ONE, TWO, 4, Hash::Answers),
    ],
    counts: Counts {
        hit: 70,
        cold: 134,
        built: 1,
        first_due: 128,
        ..NOTHING
    },
};

/// The same, and then a tuple of too few fields is sought.
static SHORT: Lesson = Lesson {
    unique: 3,
    room: true,
    searches: &[
        (1, NONE, NONE, 0, Hash::Answers),
        (3, ONE, NONE, 3, Hash::Answers),
        (200, ONE, TWO, 4, Hash::Answers),
        (1, NONE, ONE, 4, Hash::IsShort),
    ],
    counts: Counts {
        hit: 70,
        cold: 134,
        short: 1,
        built: 1,
        first_due: 128,
        ..NOTHING
    },
};

/// The info of an index of one field has this word.
fn has_word(info: &Info, word: u64) -> bool {
    is_info_of(1, info) && pack(info) == word && unpack(word) == *info
}

#[test]
fn one_key_of_three_is_hit_from_its_132nd_search(rt: HostRuntime) {
    let info = learnt(&rt, &HITS);
    ensure(&rt, has_word(&info, 0x0000_012f_0000_63a7), "the word");
    ensure(&rt, has_word(&Info::opening(), 0x4002), "the opening word");
    ensure(
        &rt,
        info.potential == 105 && info.analysis == 17,
        "these counts",
    );
}

#[test]
fn keys_with_one_fold_are_built_again_and_again(rt: HostRuntime) {
    let info = learnt(&rt, &MISSES);
    ensure(&rt, info.potential == 127, "the highest potential");
}

#[test]
fn without_room_each_build_is_due_again(rt: HostRuntime) {
    learnt(&rt, &NO_ROOM);
}

#[test]
fn a_group_of_keys_is_hit_by_its_first_row(rt: HostRuntime) {
    let params = Params {
        fields: 2,
        bytes: 0,
        left: true,
    };
    let info = learnt(&rt, &GROUP);
    ensure(&rt, info.params == params, "a group's first row");
    learnt(&rt, &SHORT);
}

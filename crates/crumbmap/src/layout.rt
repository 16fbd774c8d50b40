// The numbers of layout 1, each once; contracts say `layout1` (specs/Layouts.antt), which has the same.

// "Each of the 36 mini-buckets."
pub const MINIS: u32 = 36;

// "Front: 28 slots."
pub const FRONT_SLOTS: usize = 28;

// "Backyard: 22 slots."
pub const BACK_SLOTS: usize = 22;

// "Tags, two bytes each."
pub const TAGS: u32 = 65_536;

// Keys of a mini-bucket and a tag, m × TAGS + r.
pub const KEYS: u32 = MINIS * TAGS;

// The most members behind a front bucket, in First(f) and Second(f), and with its own.
pub const MOST_BEHIND: usize = 2 * BACK_SLOTS;

pub const MOST_MEMBERS: usize = FRONT_SLOTS + MOST_BEHIND;

// The limits of an image and what follows from them. specs/Limits.antt has them for the definitions, with the bounds that only proofs need.
// Records of an image.
pub const MAX_RECORDS: usize = 2048;

// What a writer counts up to: a record that has no room.
pub const NO_ROOM: usize = MAX_RECORDS + 1;

// Records from the root down to the deepest, both counted.
pub const MAX_DEPTH: usize = 256;

// Fields of a schema, and of both inputs of a join together.
pub const MAX_FIELDS: usize = 64;

// What a schema counts up to: one more than it has room for.
pub const TOO_MANY_FIELDS: usize = MAX_FIELDS + 1;

// Conjuncts of a filter, and filters of a scan.
pub const MAX_LIST: usize = 128;

// What a list counts up to: one more than it has room for.
pub const TOO_MANY: usize = MAX_LIST + 1;

// Bytes of a record: eight words.
pub const RECORD_BYTES: usize = 32;

// Bytes of the longest image.
pub const MAX_BYTES: usize = RECORD_BYTES * MAX_RECORDS;

// Bytes of a map of names: a record, and for each field an entry with a column below it.
pub const MAP_BYTES: usize = RECORD_BYTES * (1 + 2 * MAX_FIELDS);

// The greatest numbers: of images, of files that are read, and of a machine's limits and sizes. Then the bytes of a
// bank's line and of a copy's piece.
/// The most segments of an image.
pub const MAX_SEGMENTS: u32 = 256;

/// The most bytes of an image's segments together.
pub const MAX_IMAGE_BYTES: u32 = 0x400_0000;

/// The most bytes of the file of a machine description.
pub const MACHINE_FILE_BYTES: u64 = 65_536;

/// The most bytes of the file of an image.
pub const IMAGE_FILE_BYTES: u64 = 33_554_432;

/// The most bytes of the file of a schedule.
pub const SCHEDULE_FILE_BYTES: u64 = 67_108_864;

/// The most instructions that main may execute.
pub const MAX_MAIN_BUDGET: u32 = 1_000_000_000;

/// The most instructions that a task may execute.
pub const MAX_TASK_BUDGET: u32 = 100_000_000;

/// The most tasks of a run, and so the greatest number of a task.
pub const MAX_TASKS: u32 = 65_536;

/// The most operands of a task.
pub const MAX_OPERANDS: u32 = 7;

/// The most bytes of an object.
pub const MAX_OBJECT_BYTES: u32 = 65_536;

/// The most objects that main may have named at one time.
pub const MAX_EPOCH_OBJECTS: u32 = 65_536;

/// The most bytes that main may print.
pub const MAX_OUTPUT_BYTES: u32 = 1_048_576;

/// The most reservation stations.
pub const MAX_STATIONS: u32 = 16;

/// The most slots of a station.
pub const MAX_SLOTS: u32 = 64;

/// The most worker cores.
pub const MAX_WORKERS: u32 = 64;

/// The most banks.
pub const MAX_BANKS: u32 = 64;

/// The most entries of a renaming bank.
pub const MAX_ENTRIES: u32 = 256;

/// The most versions of a versioning bank.
pub const MAX_VERSIONS: u32 = 256;

/// The most rename buffers of a bank.
pub const MAX_BUFFERS: u32 = 64;

/// The most instructions of one event.
pub const MAX_QUANTUM: u32 = 65_536;

/// The most tasks that decode at once.
pub const MAX_WINDOW: u32 = 8;

/// Banks take the memory in turn, so many bytes each.
pub const BANK_BYTES: u32 = 64;

/// The most bytes that one copy event brings home.
pub const COPY_BYTES: u32 = 64;

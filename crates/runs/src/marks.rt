// The runs of fields that the tables are made of, each with its marks: a field's bits, and 128 more where it is signed,
// or where its number is tested, as a clock's extension is in a body.
// A run stands here once, for both directions of the ledger; the comment above it names its fields in their order.
// Marks are plain bytes, and that they are valid is required (`valid`): a constant's invariant is shown where it is
// passed, as the `requires` is, and a loop would show it of each mark it takes out. As bytes they cost least
// (docs/DECISIONS.md).

// A clock's extension: 9 bits, tested. A clock is three marks: 33, 6, EXT.
pub const EXT: u8 = 137;

// Id 0: satellite_id, reserved, position_system.
pub const SATELLITE: [u8; 3] = [24, 7, 1];

// orbital_position, west_east_flag, reserved.
pub const ORBITAL: [u8; 3] = [16, 1, 7];

// epoch_year, day_of_the_year, day_fraction, mean_motion_first_derivative, mean_motion_second_derivative, drag_term,
// inclination, right_ascension, eccentricity, argument_of_perigree, mean_anomaly, mean_motion.
pub const ELEMENTS: [u8; 12] = [8, 16, 32, 32, 32, 32, 32, 32, 32, 32, 32, 32];

// Id 1: cell_fragment_id, first_occurrence.
pub const CELL: [u8; 2] = [32, 1];

// last_occurrence.
pub const LAST: [u8; 1] = [1];

// reserved, centre_latitude, reserved, centre_longitude, max_distance, reserved, delivery_system_count.
pub const CENTRE: [u8; 7] = [4, 146, 5, 147, 24, 6, 10];

// reserved, delivery_system_count.
pub const NO_CENTRE: [u8; 2] = [4, 10];

// delivery_system_id.
pub const SYSTEM_ID: [u8; 1] = [32];

// reserved, and the count of the new or the obsolescent delivery systems.
pub const SYSTEM_COUNT: [u8; 2] = [6, 10];

// new_delivery_system_id and time_of_application, or the obsolescent one's; a clock is its base, reserved and its ext.
pub const SYSTEM: [u8; 4] = [32, 33, 6, EXT];

// Id 2: association_type.
pub const TYPE: [u8; 1] = [4];

// leap59, leap61, pastleap59, pastleap61, the clock ncr, association_timestamp_seconds,
// association_timestamp_nanoseconds.
pub const LEAP: [u8; 9] = [1, 1, 1, 1, 33, 6, EXT, 64, 32];

// reserved in place of the leap flags, and the same behind it.
pub const NO_LEAP: [u8; 6] = [4, 33, 6, EXT, 64, 32];

// Id 3: beamhopping_time_plan_id, reserved.
pub const PLAN: [u8; 2] = [32, 4];

// plan_length, which a ledger of edition 2 has.
pub const PLAN_LENGTH: [u8; 1] = [12];

// reserved, time_plan_mode.
pub const MODE: [u8; 2] = [6, 2];

// Two clocks: time_of_application and cycle_duration; in mode 0, dwell_duration and on_time.
pub const CLOCKS: [u8; 6] = [33, 6, EXT, 33, 6, EXT];

// Four clocks: grid_size, revisit_duration, sleep_time, sleep_duration.
pub const GRID: [u8; 12] = [33, 6, EXT, 33, 6, EXT, 33, 6, EXT, 33, 6, EXT];

// reserved, and bit_map_size or current_slot.
pub const SLOT: [u8; 2] = [1, 15];

// Id 4, in front of the entries: oem_version_major, oem_version_minor, the stamp creation_date.
pub const HEADER: [u8; 6] = [4, 4, 8, 7, 9, 32];

// satellite_id, reserved, metadata_flag.
pub const SATELLITE3: [u8; 3] = [24, 3, 1];

// Any other flag of a satellite: what follows asks for each, so each is a run.
pub const FLAG: [u8; 1] = [1];

// A stamp: year, reserved, day, day_fraction.
pub const STAMP: [u8; 4] = [8, 7, 9, 32];

// total_start_time, total_stop_time, reserved, interpolation_flag, interpolation_type, interpolation_degree.
pub const METADATA: [u8; 12] = [8, 7, 9, 32, 8, 7, 9, 32, 1, 1, 3, 3];

// ephemeris_data_count.
pub const EPHEMERIS_COUNT: [u8; 1] = [16];

// The stamp epoch; ephemeris_x, y, z; ephemeris_x_dot, y_dot, z_dot.
pub const MOTION: [u8; 10] = [8, 7, 9, 32, 32, 32, 32, 32, 32, 32];

// The same, and ephemeris_x_ddot, y_ddot, z_ddot.
pub const ACCELERATED: [u8; 13] = [8, 7, 9, 32, 32, 32, 32, 32, 32, 32, 32, 32, 32];

// The stamp covariance_epoch and the 21 covariance_elements.
pub const COVARIANCE: [u8; 25] = [
    8, 7, 9, 32, 32, 32, 32, 32, 32, 32, 32, 32, 32, 32, 32, 32, 32, 32, 32, 32, 32, 32, 32, 32, 32,
];

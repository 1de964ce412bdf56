//! Permissions of pages.

use rrv_model::machine::Permissions;

/// What may be read and written.
pub const DATA: Permissions = Permissions {
    read: true,
    write: true,
    execute: false,
};

/// What may be read alone.
pub const CONSTANTS: Permissions = Permissions {
    read: true,
    write: false,
    execute: false,
};

/// What may be executed alone.
pub const CODE: Permissions = Permissions {
    read: false,
    write: false,
    execute: true,
};

/// What may be read, written and executed.
pub const ALL: Permissions = Permissions {
    read: true,
    write: true,
    execute: true,
};

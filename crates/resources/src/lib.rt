// What an exchange is given: the payload that it carries, the store that it spills to, and the reservation that it holds memory by.
//
//     Payload      a value <-> 1 to 64 words            Notice, Receipt
//     Store        file number -> batches, as words     Tripping over any store; in `stores` BlockStore, LogStore
//     Reservation  held and headroom                    Ceiling, Tenant (one among 16)
//
// Each is a trait whose ghost members say what a value means; a layer above is proved once, against the trait alone.
#![tactic(auto)]

pub mod cause;
pub mod ceiling;
pub mod notice;
pub mod payload;
pub mod receipt;
pub mod reservation;
pub mod runs;
pub mod store;
pub mod tenant;
pub mod tenants;
pub mod tripping;

// What a slot's registers ask for: the request that they encode (request.rt), and the checks of data and of one sector (access.rt).
#![tactic(auto)]

mod access;
mod request;

pub use access::{data_code, sector_error};
pub use request::{Operation, Request, request_of};

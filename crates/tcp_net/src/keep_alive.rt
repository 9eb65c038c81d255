// Finding out that a silent peer is gone.
use libc::net::{
    IPPROTO_TCP, SO_KEEPALIVE, SOL_SOCKET, TCP_KEEPCNT, TCP_KEEPIDLE, TCP_KEEPINTVL, setsockopt,
};
use std::os::fd::RawFd;

// Makes the system ask a peer that has been silent for 60 seconds whether it is still there, and again every 10
// seconds. After 6 questions without an answer the connection has failed. A system that knows no such option keeps its
// own times.
pub(crate) fn keep_alive(socket: RawFd) {
    unsafe {
        let _ = setsockopt(socket, SOL_SOCKET, SO_KEEPALIVE, &number(1), 4);
        let _ = setsockopt(socket, IPPROTO_TCP, TCP_KEEPIDLE, &number(60), 4);
        let _ = setsockopt(socket, IPPROTO_TCP, TCP_KEEPINTVL, &number(10), 4);
        let _ = setsockopt(socket, IPPROTO_TCP, TCP_KEEPCNT, &number(6), 4);
    }
}

// A number as the bytes of an option's value.
fn number(value: i32) -> [u8; 16] {
    let mut bytes = [0u8; 16];
    bytes[..4].copy_from_slice(&value.to_ne_bytes());
    bytes
}

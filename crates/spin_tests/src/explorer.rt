//! What no contract says of the explorer, in tests that are proved: [`schedules`] plays too much for run-time checks, and
//! [`seats`] shows a caller of [`schedule`](spin_explore::schedule).
mod schedules;
mod seats;

// State in the files of a folder, for programs: slots that show whether they were written whole, the layouts of a server's and of a user's
// file, files by name, and a lock that keeps a second process out; and messages on a stream of bytes.
#![tactic(auto)]

pub mod arguments;
pub mod file;
pub mod frames;
pub mod lock;
pub mod report;
pub mod server_file;
pub mod setup;
pub mod slot;
pub mod user_file;

//! Where jobs are kept between two runs of the program: in the tables of a database, over any store that `sqlite`
//! takes, and over the job file of the current folder. Which jobs the tables hold is told in no contract. When a call
//! fails is, and what that counts. So is that a load or a part tells what its query shows, and that a save which is done
//! has run its statements and committed what they wrote. Of a save that fails over the tables of an open database it is
//! told that the database is as before, of one over the job file it isn't.
#![tactic(auto)]

mod job_file;
mod job_tables;
mod tables;
mod told;

pub use job_file::SqliteKeeper;
pub use job_tables::JobTables;

//! Laws of the words of faults and coins: no two are printed alike, and a coin is read back. It has laws alone.
#![tactic(auto)]

mod laws;

pub use laws::{
    address_faults_are_told_apart, block_faults_are_told_apart, bump_faults_are_told_apart,
    coins_are_read_back, log_faults_are_told_apart, plan_faults_are_told_apart,
    psbt_faults_are_told_apart, request_faults_are_told_apart, transaction_faults_are_told_apart,
    wallet_faults_are_told_apart,
};

//! Tests of the bench, its replicas, and reads that are reported falsely.

mod gates;
mod lies;
mod replicas;

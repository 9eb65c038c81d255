/// In which order metrics are drained. Ties go to the least path in byte order.
#[derive(Clone, Copy, Debug, PartialEq, Eq)]
pub enum Strategy {
    /// The metric with most pending points.
    Max,
    /// A queue of all metrics with pending points, most points first, which is made anew when it is empty.
    Sorted,
    /// The metric whose oldest pending point is oldest.
    TimeSorted,
    /// The metric that got its first pending point first.
    Naive,
}

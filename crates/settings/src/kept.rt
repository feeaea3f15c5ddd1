// What is written in the settings.

// The settings that are one number each.
#[derive(Clone, Copy, PartialEq, Eq, Debug)]
pub enum Setting {
    // How many buckets there are.
    Buckets,
    // The number of this server.
    Server,
    // How many balancers there are.
    Balancers,
    // The number of this balancer.
    Balancer,
}

#[derive(Drop)]
pub struct Settings {
    pub buckets: Option<u32>,
    // The servers at the start; none where they are not written yet.
    pub servers: Vec<u8>,
    pub server: Option<u32>,
    pub balancers: Option<u32>,
    pub balancer: Option<u32>,
}

//! A service, as what answers the lines of sessions that follow their views.
ghost use Rattle.std.specs.Prelude.{◌≡◌};

use chart_service::Service;
use gate_pages::Pages;

/// A service, as what answers the lines of sessions that follow their views.
#[derive(Drop)]
pub struct ServiceStepper<P: Pages> {
    pub service: Service<P>,
}

impl<P: Pages> ServiceStepper<P> {
    /// The stepper over a service.
    pub fn new(service: Service<P>) -> ServiceStepper<P>
        ensures { result.service ≡ service }
    {
        ServiceStepper { service }
    }

    /// The service.
    pub fn into_service(self) -> Service<P>
        ensures { result ≡ self.service }
    {
        self.service
    }
}

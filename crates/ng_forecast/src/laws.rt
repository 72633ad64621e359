// The law that joins a forecast to a run. The function does nothing: its contract is the law.
ghost use Rattle.ng_forecast.specs.ComesTrue.{ForecastsComeTrue};

/// A run without workers does what a forecast of the same words runs; then it is fed the packets, and if it loses none, exactly
/// the bag of the forecast leaves.
pub fn forecasts_come_true()
    ensures { ForecastsComeTrue }
{}

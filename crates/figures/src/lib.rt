// The worked figures of the rules, each set under one assertion, and examples as tests.
#![tactic(auto)]

#[cfg(test)]
mod basins;
#[cfg(test)]
mod reckonings;
#[cfg(test)]
mod tables;
#[cfg(test)]
mod tariffs;

ghost use Rattle.figures.specs.Figures.{Figures};
ghost use Rattle.figures.specs.Stations.{StationFigures};

// Does nothing: its contract says that the definitions give the worked figures.
pub fn worked_figures()
    ensures { Figures }
{}

// Does nothing: its contract says that the definitions give the worked figures of searches and stations.
pub fn worked_figures_of_stations()
    ensures { StationFigures }
{}
